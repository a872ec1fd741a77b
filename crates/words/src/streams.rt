ghost use Rattle.words.specs.Streams.{StreamBy};

// Where bytes come from or go to: standard input or output, or a file.
#[derive(Clone, Copy, PartialEq, Eq, Debug)]
pub enum Stream<'a> {
    Standard,
    File(&'a str),
}

// A file's path, or a hyphen.
impl<'a> From<&'a str> for Stream<'a> {
    ghost from_gives = { λ word r. StreamBy word.now r };

    fn from(word: &'a str) -> Stream<'a> {
        match word {
            "-" => Stream::Standard,
            path => Stream::File(path),
        }
    }
}
