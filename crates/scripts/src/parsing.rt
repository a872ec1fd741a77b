ghost use Rattle.std.specs.Prelude.{◌≤◌};
ghost use Rattle.scripts.specs.Forms.{texts_of};
ghost use Rattle.scripts.specs.Splits.{words_of};
ghost use Rattle.scripts.specs.Parsing.{PlaceRead, PlanRead, RecordRead, LineRead, Read, Parsed};

use crate::forms::{AskForm, ChangeForm, ChipForm, Form, SetupForm, form_of};
use crate::lines::{Ask, Change, ChipCall, Content, Line, Recorded, Setup};
use crate::misreads::Misread;
use crate::operands::{data, long, number, state, word};
use crate::splits::words;
use bench::Plan;
use flash::{Place, Sizes, Tag};
use std::alloc::Global;

// The place that words 1 and 2 write.
fn place(words: &[&[u8]]) -> Result<Place, Misread>
    ensures { PlaceRead (texts_of words.now) result }
{
    Ok(Place {
        block: number(words, 1)?,
        chunk: number(words, 2)?,
    })
}

// The plan that three words write.
fn plan(words: &[&[u8]], at: usize) -> Result<Plan, Misread>
    requires { at ≤ 3 }
    ensures { PlanRead (texts_of words.now) at result }
{
    Ok(Plan {
        fails: long(words, at)?,
        damages: long(words, at + 1)?,
        takes: long(words, at + 2)?,
    })
}

// The record and its place that words 1 to 7 write.
fn recorded<'a>(words: &[&'a [u8]]) -> Result<Recorded<'a>, Misread>
    ensures { RecordRead (texts_of words.now) result }
{
    Ok(Recorded {
        at: Place {
            block: number(words, 1)?,
            chunk: number(words, 2)?,
        },
        tag: Tag {
            first: number(words, 3)?,
            second: number(words, 4)?,
            third: number(words, 5)?,
            serial: number(words, 6)?,
        },
        data: data(words, 7)?,
    })
}

// A blank bench chip of the sizes that words 1 and 2 write.
fn bench<'a>(words: &[&'a [u8]]) -> Result<Line<'a>, Misread>
    ensures { LineRead (Form.Setup SetupForm.Bench) (texts_of words.now) result }
{
    let sizes = Sizes {
        blocks: number(words, 1)?,
        chunks: number(words, 2)?,
    };
    let plan = Plan::default();
    Ok(Line::Setup(Setup::Bench { sizes, plan }))
}

// The same with a plan.
fn bench_plan<'a>(words: &[&'a [u8]]) -> Result<Line<'a>, Misread>
    ensures { LineRead (Form.Setup SetupForm.BenchPlan) (texts_of words.now) result }
{
    let sizes = Sizes {
        blocks: number(words, 1)?,
        chunks: number(words, 2)?,
    };
    let plan = plan(words, 3)?;
    Ok(Line::Setup(Setup::Bench { sizes, plan }))
}

// A chunk that is to be blank or damaged.
fn chunk_state<'a>(words: &[&'a [u8]]) -> Result<Line<'a>, Misread>
    ensures { LineRead (Form.Setup SetupForm.ChunkState) (texts_of words.now) result }
{
    let at = Place {
        block: number(words, 1)?,
        chunk: number(words, 2)?,
    };
    let content = state(words, 3)?;
    Ok(Line::Setup(Setup::Chunk { at, content }))
}

// A chunk that is to hold a record.
fn chunk_record<'a>(words: &[&'a [u8]]) -> Result<Line<'a>, Misread>
    ensures { LineRead (Form.Setup SetupForm.ChunkRecord) (texts_of words.now) result }
{
    let Recorded { at, tag, data } = recorded(words)?;
    let content = Content::Holds { tag, data };
    Ok(Line::Setup(Setup::Chunk { at, content }))
}

fn setup<'a>(form: SetupForm, words: &[&'a [u8]]) -> Result<Line<'a>, Misread>
    ensures { LineRead (Form.Setup form) (texts_of words.now) result }
{
    let file = word(words, 1);
    match form {
        SetupForm::Bench => bench(words),
        SetupForm::BenchPlan => bench_plan(words),
        SetupForm::Plan => Ok(Line::Setup(Setup::Plan(plan(words, 1)?))),
        SetupForm::Image => Ok(Line::Setup(Setup::Image { file })),
        SetupForm::ChunkState => chunk_state(words),
        SetupForm::ChunkRecord => chunk_record(words),
        SetupForm::Dump => Ok(Line::Setup(Setup::Dump)),
        SetupForm::Save => Ok(Line::Setup(Setup::Save { file })),
    }
}

fn program<'a>(words: &[&'a [u8]]) -> Result<Line<'a>, Misread>
    ensures { LineRead (Form.Chip ChipForm.Program) (texts_of words.now) result }
{
    let Recorded { at, tag, data } = recorded(words)?;
    Ok(Line::Chip(ChipCall::Program { at, tag, data }))
}

fn chip<'a>(form: ChipForm, words: &[&'a [u8]]) -> Result<Line<'a>, Misread>
    ensures { LineRead (Form.Chip form) (texts_of words.now) result }
{
    match form {
        ChipForm::Sizes => Ok(Line::Chip(ChipCall::Sizes)),
        ChipForm::Look => Ok(Line::Chip(ChipCall::Look(place(words)?))),
        ChipForm::Fetch => Ok(Line::Chip(ChipCall::Fetch(place(words)?))),
        ChipForm::Program => program(words),
        ChipForm::Erase => Ok(Line::Chip(ChipCall::Erase {
            block: number(words, 1)?,
        })),
        ChipForm::Restart => Ok(Line::Chip(ChipCall::Restart)),
    }
}

fn change<'a>(form: ChangeForm, words: &[&'a [u8]]) -> Result<Line<'a>, Misread>
    ensures { LineRead (Form.Change form) (texts_of words.now) result }
{
    let object = number(words, 1)?;
    Ok(Line::Change(match form {
        ChangeForm::Create => Change::Create {
            object,
            name: data(words, 2)?,
        },
        ChangeForm::Rename => Change::Rename {
            object,
            name: data(words, 2)?,
        },
        ChangeForm::Delete => Change::Delete { object },
        ChangeForm::Open => Change::Open { object },
        ChangeForm::Close => Change::Close { object },
        ChangeForm::Put => Change::Put {
            object,
            number: number(words, 2)?,
            bytes: data(words, 3)?,
        },
        ChangeForm::Cut => Change::Cut {
            object,
            length: number(words, 2)?,
        },
    }))
}

fn ask<'a>(form: AskForm, words: &[&'a [u8]]) -> Result<Line<'a>, Misread>
    ensures { LineRead (Form.Ask form) (texts_of words.now) result }
{
    Ok(Line::Ask(match form {
        AskForm::Find => Ask::Find {
            name: data(words, 1)?,
        },
        AskForm::Size => Ask::Size {
            object: number(words, 1)?,
        },
        AskForm::List => Ask::List {
            rows: number(words, 1)?,
        },
        AskForm::Read => Ask::Read {
            object: number(words, 1)?,
            position: long(words, 2)?,
            length: number(words, 3)?,
        },
    }))
}

// The line that words are.
fn read<'a>(words: &[&'a [u8]]) -> Result<Line<'a>, Misread>
    ensures { Read (texts_of words.now) result }
{
    match form_of(words)? {
        Form::Setup(form) => setup(form, words),
        Form::Chip(form) => chip(form, words),
        Form::Life(life) => Ok(Line::Life(life)),
        Form::Change(form) => change(form, words),
        Form::Ask(form) => ask(form, words),
    }
}

// The call that a line of text is, if it is more than blanks and a comment.
pub fn parse(heap: Global, line: &str) -> Result<Option<Line<'_>>, Misread>
    ensures { Parsed (words_of line.now) result }
{
    let words = words(heap, line)?;
    if words.is_empty() {
        return Ok(None);
    }
    Ok(Some(read(&words)?))
}
