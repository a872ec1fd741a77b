ghost use Rattle.std.specs.Prelude.{◌≡◌, IfErr};
ghost use Rattle.std.specs.Result.{result_ok};
ghost use Rattle.words.specs.declared.parsing.Misuse.TheVariants.{Unknown};
ghost use Rattle.words.specs.Names.{Named};

use crate::parsing::Misuse;

// The commands, by their names.
#[derive(Clone, Copy, PartialEq, Eq, Debug)]
pub enum Name {
    New,
    Put,
    Get,
    Ls,
    Cat,
    Cut,
    Mv,
    Rm,
    Info,
    Dump,
    Collect,
    Format,
    Replay,
    Demo,
    Help,
}

// The command that a word names.
impl<'a> TryFrom<&'a str> for Name {
    type Error = Misuse<'a>;

    ghost try_from_gives = { λ word r. Named word.now (result_ok r) × IfErr r (λ e. e ≡ Unknown word) };

    fn try_from(word: &'a str) -> Result<Name, Misuse<'a>> {
        match word {
            "new" => Ok(Name::New),
            "put" => Ok(Name::Put),
            "get" => Ok(Name::Get),
            "ls" => Ok(Name::Ls),
            "cat" => Ok(Name::Cat),
            "cut" => Ok(Name::Cut),
            "mv" => Ok(Name::Mv),
            "rm" => Ok(Name::Rm),
            "info" => Ok(Name::Info),
            "dump" => Ok(Name::Dump),
            "collect" => Ok(Name::Collect),
            "format" => Ok(Name::Format),
            "replay" => Ok(Name::Replay),
            "demo" => Ok(Name::Demo),
            "help" => Ok(Name::Help),
            _ => Err(Misuse::Unknown(word)),
        }
    }
}
