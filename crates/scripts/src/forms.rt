ghost use Rattle.std.specs.Prelude.{◌≡◌, length};
ghost use Rattle.std.specs.List.{find, list_any};
ghost use Rattle.scripts.specs.Forms.{form_text, kinds, is_named, is_form, texts_of, found, begun, FormBy};

use crate::lines::Life;
use crate::misreads::Misread;
use crate::operands::word;

// The forms of lines that make a chip or look after it.
#[derive(Clone, Copy)]
pub enum SetupForm {
    Bench,
    BenchPlan,
    Plan,
    Image,
    ChunkState,
    ChunkRecord,
    Dump,
    Save,
}

// Of the chip's own calls.
#[derive(Clone, Copy)]
pub enum ChipForm {
    Sizes,
    Look,
    Fetch,
    Program,
    Erase,
    Restart,
}

// Of calls that change files, and of open and close.
#[derive(Clone, Copy)]
pub enum ChangeForm {
    Create,
    Rename,
    Delete,
    Open,
    Close,
    Put,
    Cut,
}

// Of questions.
#[derive(Clone, Copy)]
pub enum AskForm {
    Find,
    Size,
    List,
    Read,
}

// A form of line: its first word, and what follows.
#[derive(Clone, Copy)]
pub enum Form {
    Setup(SetupForm),
    Chip(ChipForm),
    Life(Life),
    Change(ChangeForm),
    Ask(AskForm),
}

// All forms.
pub const FORMS: [Form; 30] = [
    Form::Setup(SetupForm::Bench),
    Form::Setup(SetupForm::BenchPlan),
    Form::Setup(SetupForm::Plan),
    Form::Setup(SetupForm::Image),
    Form::Setup(SetupForm::ChunkState),
    Form::Setup(SetupForm::ChunkRecord),
    Form::Setup(SetupForm::Dump),
    Form::Setup(SetupForm::Save),
    Form::Chip(ChipForm::Sizes),
    Form::Chip(ChipForm::Look),
    Form::Chip(ChipForm::Fetch),
    Form::Chip(ChipForm::Program),
    Form::Chip(ChipForm::Erase),
    Form::Chip(ChipForm::Restart),
    Form::Life(Life::Attach),
    Form::Life(Life::Release),
    Form::Life(Life::Format),
    Form::Life(Life::Mount),
    Form::Life(Life::Collect),
    Form::Change(ChangeForm::Create),
    Form::Change(ChangeForm::Rename),
    Form::Change(ChangeForm::Delete),
    Form::Change(ChangeForm::Open),
    Form::Change(ChangeForm::Close),
    Form::Change(ChangeForm::Put),
    Form::Change(ChangeForm::Cut),
    Form::Ask(AskForm::Find),
    Form::Ask(AskForm::Size),
    Form::Ask(AskForm::List),
    Form::Ask(AskForm::Read),
];

impl Form {
    // The first word.
    fn text(self) -> &'static str
        ensures { result.now ≡ form_text self }
    {
        match self {
            Form::Setup(SetupForm::Bench | SetupForm::BenchPlan) => "bench",
            Form::Setup(SetupForm::Plan) => "plan",
            Form::Setup(SetupForm::Image) => "image",
            Form::Setup(SetupForm::ChunkState | SetupForm::ChunkRecord) => "chunk",
            Form::Setup(SetupForm::Dump) => "dump",
            Form::Setup(SetupForm::Save) => "save",
            Form::Chip(ChipForm::Sizes) => "chip.sizes",
            Form::Chip(ChipForm::Look) => "chip.look",
            Form::Chip(ChipForm::Fetch) => "chip.fetch",
            Form::Chip(ChipForm::Program) => "chip.program",
            Form::Chip(ChipForm::Erase) => "chip.erase",
            Form::Chip(ChipForm::Restart) => "chip.restart",
            Form::Life(Life::Attach) => "attach",
            Form::Life(Life::Release) => "release",
            Form::Life(Life::Format) => "format",
            Form::Life(Life::Mount) => "mount",
            Form::Life(Life::Collect) => "collect",
            Form::Change(ChangeForm::Create) => "create",
            Form::Change(ChangeForm::Rename) => "rename",
            Form::Change(ChangeForm::Delete) => "delete",
            Form::Change(ChangeForm::Open) => "open",
            Form::Change(ChangeForm::Close) => "close",
            Form::Change(ChangeForm::Put) => "put",
            Form::Change(ChangeForm::Cut) => "cut",
            Form::Ask(AskForm::Find) => "find",
            Form::Ask(AskForm::Size) => "size",
            Form::Ask(AskForm::List) => "list",
            Form::Ask(AskForm::Read) => "read",
        }
    }

    // How many words follow.
    fn count(self) -> usize
        ensures { result ≡ length (kinds self) }
    {
        match self {
            Form::Setup(SetupForm::Dump) | Form::Life(_) => 0,
            Form::Chip(ChipForm::Sizes | ChipForm::Restart) => 0,
            Form::Setup(SetupForm::Image | SetupForm::Save) | Form::Chip(ChipForm::Erase) => 1,
            Form::Change(ChangeForm::Delete | ChangeForm::Open | ChangeForm::Close) => 1,
            Form::Ask(AskForm::Find | AskForm::Size | AskForm::List) => 1,
            Form::Setup(SetupForm::Bench) | Form::Chip(ChipForm::Look | ChipForm::Fetch) => 2,
            Form::Change(ChangeForm::Create | ChangeForm::Rename | ChangeForm::Cut) => 2,
            Form::Setup(SetupForm::Plan | SetupForm::ChunkState) => 3,
            Form::Change(ChangeForm::Put) | Form::Ask(AskForm::Read) => 3,
            Form::Setup(SetupForm::BenchPlan) => 5,
            Form::Setup(SetupForm::ChunkRecord) | Form::Chip(ChipForm::Program) => 7,
        }
    }

    // Whether the words begin with its first word.
    fn is_named(self, words: &[&[u8]]) -> bool
        ensures { result ≡ is_named (texts_of words.now) self }
    {
        word(words, 0) == self.text().as_bytes()
    }

    // Whether as many words follow, too.
    fn is_of(self, words: &[&[u8]]) -> bool
        ensures { result ≡ is_form (texts_of words.now) self }
    {
        self.is_named(words) && words.len() == self.count() + 1
    }
}

// The first form of a table that the words have.
fn first_of(forms: &[Form], words: &[&[u8]]) -> Option<Form>
    ensures { result ≡ find (is_form (texts_of words.now)) forms.now }
{
    forms.iter().find(|form| form.is_of(words)).copied()
}

// Whether the words begin as one of a table's forms does.
fn any_of(forms: &[Form], words: &[&[u8]]) -> bool
    ensures { result ≡ list_any (is_named (texts_of words.now)) forms.now }
{
    forms.iter().any(|form| form.is_named(words))
}

#[tactic(auto, unfolding(crate::specs::Forms::found))]
fn found(words: &[&[u8]]) -> Option<Form>
    ensures { result ≡ found (texts_of words.now) }
{
    first_of(&FORMS, words)
}

#[tactic(auto, unfolding(crate::specs::Forms::begun))]
fn is_begun(words: &[&[u8]]) -> bool
    ensures { result ≡ begun (texts_of words.now) }
{
    any_of(&FORMS, words)
}

// The form of words.
pub(crate) fn form_of(words: &[&[u8]]) -> Result<Form, Misread>
    ensures { FormBy (texts_of words.now) result }
{
    match found(words) {
        Some(form) => Ok(form),
        None if is_begun(words) => Err(Misread::Count),
        None => Err(Misread::Unknown),
    }
}
