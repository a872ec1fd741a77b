mod contents;
mod edited;

use commands::create::create;
use commands::dump::dump;
use std::alloc::{AllocError, Global};
use std::process::Abort;
use std::test::Fail;
use texts::stops::Stop;
use words::parsing::{Command, parse};

fn words(heap: Global, line: &str) -> Result<Vec<String>, AllocError> {
    line.split_whitespace()
        .map(|word| String::from_str(heap, word))
        .try_collect(heap)
}

// What the program makes of its words: the command, or the line that it prints.
fn parsed(heap: Global, line: &str) -> Result<String, AllocError> {
    let words = words(heap, line)?;
    match parse(&words) {
        Ok(
            Command::New {
                file,
                blocks,
                chunks,
            },
        ) => format!(in heap; "new {file} with {blocks} blocks of {chunks}"),
        Ok(Command::Put { file, name, source }) => format!(in heap;
            "put {source:?} in {file} as {name}"
        ),
        Ok(Command::Get { file, name, dest }) => format!(in heap;
            "get {name} in {file} to {dest:?}"
        ),
        Ok(Command::Ls { file }) => format!(in heap; "ls {file}"),
        Ok(
            Command::Cat {
                file,
                name,
                from,
                count,
            },
        ) => format!(in heap; "cat {name} in {file} from {from}, {count:?}"),
        Ok(Command::Cut { file, name, length }) => format!(in heap;
            "cut {name} in {file} to {length}"
        ),
        Ok(Command::Mv { file, name, new }) => format!(in heap; "mv {name} in {file} to {new}"),
        Ok(Command::Rm { file, name }) => format!(in heap; "rm {name} in {file}"),
        Ok(Command::Info { file }) => format!(in heap; "info {file}"),
        Ok(Command::Dump { file }) => format!(in heap; "dump {file}"),
        Ok(Command::Collect { file }) => format!(in heap; "collect {file}"),
        Ok(Command::Format { file }) => format!(in heap; "format {file}"),
        Ok(Command::Replay { script }) => format!(in heap; "replay {script:?}"),
        Ok(Command::Demo) => format!(in heap; "demo"),
        Ok(Command::Help) => format!(in heap; "help"),
        Ok(Command::About { command }) => format!(in heap; "help on {command:?}"),
        Err(misuse) => format!(in heap; "{misuse}"),
    }
}

fn expect(rt: &(impl Abort + AllocGlobal), line: &str, said: &str) -> Result<(), Fail> {
    assert_eq!(rt; parsed(rt.alloc(), line)?.as_str(), said, "{}", line);
    Ok(())
}

// What is said of a command that gives nothing.
pub(crate) fn said_of<T: Drop>(
    rt: &(impl Abort + AllocGlobal),
    answer: Result<T, Stop>,
    said: &str,
) -> Result<(), Fail> {
    let Err(stop) = answer else {
        return Err(Fail::new("it is not refused"));
    };
    assert_eq!(rt; format!(in rt.alloc(); "{stop}")?.as_str(), said);
    Ok(())
}

fn refuses(rt: &(impl Abort + AllocGlobal), bytes: &[u8], said: &str) -> Result<(), Fail> {
    let heap = rt.alloc();
    said_of(rt, dump(heap, bytes.to_vec(heap)?), said)
}

#[test]
fn commands(rt: HostRuntime) -> Result<(), Fail> {
    expect(&rt, "", "help")?;
    expect(&rt, "help", "help")?;
    expect(&rt, "help cat", "help on Cat")?;
    expect(&rt, "demo", "demo")?;
    expect(&rt, "dump a.img", "dump a.img")?;
    expect(&rt, "info a.img", "info a.img")?;
    expect(&rt, "ls a.img", "ls a.img")?;
    expect(&rt, "format a.img", "format a.img")?;
    expect(&rt, "cat a.img b", "cat b in a.img from 0, None")?;
    expect(&rt, "cat a.img b 7", "cat b in a.img from 7, None")?;
    expect(&rt, "cat a.img b 7 0", "cat b in a.img from 7, Some(0)")?;
    expect(&rt, "new a.img 3 2", "new a.img with 3 blocks of 2")?;
    expect(&rt, "new a.img 064 32", "new a.img with 64 blocks of 32")
}

// A hyphen is standard input or output; so is no file at all, for `replay`.
#[test]
fn changing_commands(rt: HostRuntime) -> Result<(), Fail> {
    expect(
        &rt,
        "put a.img b c.txt",
        "put File(\"c.txt\") in a.img as b",
    )?;
    expect(&rt, "put a.img - -", "put Standard in a.img as -")?;
    expect(&rt, "get a.img b ./-", "get b in a.img to File(\"./-\")")?;
    expect(&rt, "get a.img b -", "get b in a.img to Standard")?;
    expect(&rt, "cut a.img b 0", "cut b in a.img to 0")?;
    expect(
        &rt,
        "cut a.img b 99999999999",
        "cut b in a.img to 4294967295",
    )?;
    expect(&rt, "mv a.img b c", "mv b in a.img to c")?;
    expect(&rt, "rm a.img b", "rm b in a.img")?;
    expect(&rt, "collect a.img", "collect a.img")?;
    expect(&rt, "replay", "replay Standard")?;
    expect(&rt, "replay -", "replay Standard")?;
    expect(&rt, "replay --", "replay File(\"--\")")?;
    expect(&rt, "help rm", "help on Rm")
}

#[test]
fn misused_changing_commands(rt: HostRuntime) -> Result<(), Fail> {
    let put = "wrong number of words, write tfs put FILE NAME SOURCE";
    expect(&rt, "put a.img b", put)?;
    expect(&rt, "put a.img b c d", put)?;
    let get = "wrong number of words, write tfs get FILE NAME DEST";
    expect(&rt, "get a.img b", get)?;
    let cut = "wrong number of words, write tfs cut FILE NAME LENGTH";
    expect(&rt, "cut a.img b", cut)?;
    expect(&rt, "cut a.img b c", "'c' is not a number")?;
    expect(&rt, "cut a.img b -1", "'-1' is not a number")?;
    let mv = "wrong number of words, write tfs mv FILE NAME NEW";
    expect(&rt, "mv a.img b", mv)?;
    expect(
        &rt,
        "rm a.img",
        "wrong number of words, write tfs rm FILE NAME",
    )?;
    let collect = "wrong number of words, write tfs collect FILE";
    expect(&rt, "collect", collect)?;
    let replay = "wrong number of words, write tfs replay [FILE]";
    expect(&rt, "replay a b", replay)?;
    expect(&rt, "remove a.img b", "no command 'remove', see tfs help")
}

#[test]
fn misuses(rt: HostRuntime) -> Result<(), Fail> {
    expect(&rt, "Demo", "no command 'Demo', see tfs help")?;
    expect(&rt, "help me", "no command 'me', see tfs help")?;
    expect(
        &rt,
        "help cat ls",
        "wrong number of words, write tfs help [COMMAND]",
    )?;
    expect(&rt, "demo twice", "wrong number of words, write tfs demo")?;
    expect(&rt, "dump", "wrong number of words, write tfs dump FILE")?;
    expect(
        &rt,
        "new a.img 3",
        "wrong number of words, write tfs new FILE N P",
    )?;
    expect(&rt, "ls", "wrong number of words, write tfs ls FILE")?;
    expect(
        &rt,
        "info a.img b",
        "wrong number of words, write tfs info FILE",
    )?;
    expect(
        &rt,
        "format",
        "wrong number of words, write tfs format FILE",
    )?;
    let cat = "wrong number of words, write tfs cat FILE NAME [FROM [COUNT]]";
    expect(&rt, "cat a.img", cat)?;
    expect(&rt, "cat a.img b 1 2 3", cat)?;
    expect(&rt, "cat a.img b c d", "'c' is not a number")?;
    expect(&rt, "cat a.img b 1 -2", "'-2' is not a number")?;
    expect(&rt, "new a.img x -4", "'x' is not a number")?;
    expect(&rt, "new a.img 3 -4", "'-4' is not a number")
}

#[test]
fn sizes_that_no_store_mounts(rt: HostRuntime) -> Result<(), Fail> {
    let refusal =
        "refused: 9, the number of blocks is outside 3 to 64, that of chunks in each outside 2 to 64, \
         or that of all chunks over 2,048";
    expect(&rt, "new a.img 2 4", refusal)?;
    expect(&rt, "new a.img 65 4", refusal)?;
    expect(&rt, "new a.img 3 1", refusal)?;
    expect(&rt, "new a.img 3 65", refusal)?;
    expect(&rt, "new a.img 64 33", refusal)?;
    expect(&rt, "new a.img 99999999999 4", refusal)
}

#[test]
fn images(rt: HostRuntime) -> Result<(), Fail> {
    refuses(&rt, b"TFS", "refused: 1, under 8 bytes or not marked TFS")?;
    refuses(
        &rt,
        b"TFS\x02\x00\x03\x04\x00",
        "refused: 2, the version is not 1",
    )?;
    refuses(
        &rt,
        b"TFS\x01\x00\x03\x04\x00",
        "refused: 3, the length does not match the numbers of blocks and chunks",
    )?;
    let text = dump(rt.alloc(), create(rt.alloc(), 3, 2)?)?;
    assert!(rt;
        text.as_str()
            .starts_with("3 blocks of 2 chunks, off\nblock 0, chunk 0: blank\n")
    );
    assert_eq!(rt; text.as_str().lines().count(), 7);
    Ok(())
}
