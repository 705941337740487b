//! Why the program cannot begin: it has no words.

ghost use Rattle.std.specs.Prelude.{◌≡◌, ◌≢◌};
ghost use Rattle.std.specs.IoError.{error_kind};
ghost use Rattle.std.specs.declared.io.ErrorKind.TheVariants.{OutOfMemory};
ghost use Rattle.scald.specs.Said.{unstarted_status};

use crate::said::NO_MEMORY;
use scald_base::NoMemory;
use std::io;

/// Why the program cannot begin.
#[derive(Clone, Copy, Debug)]
pub enum Unstarted {
    /// The arguments are unavailable, or not text.
    NoArguments,
    /// There is no memory for them.
    NoMemory,
}

impl Unstarted {
    /// The status that the program then ends with. No outcome has the status 20.
    pub fn status(self) -> u8
        ensures { result ≡ unstarted_status self }
    {
        match self {
            Unstarted::NoArguments => 20,
            Unstarted::NoMemory => 8,
        }
    }

    /// The line that says so on standard error.
    pub fn why(self) -> &'static str {
        match self {
            Unstarted::NoArguments => "scald: arguments unavailable or not text",
            Unstarted::NoMemory => NO_MEMORY,
        }
    }
}

impl From<NoMemory> for Unstarted {
    ghost use Rattle.scald.specs.declared.unstarted.Unstarted.{Unstarted};

    ghost from_gives = { λ _ e. e ≡ Unstarted.NoMemory };

    fn from(_e: NoMemory) -> Unstarted {
        Unstarted::NoMemory
    }
}

impl From<io::Error> for Unstarted {
    ghost use Rattle.scald.specs.declared.unstarted.Unstarted.{Unstarted};

    ghost from_gives = { λ error e.
        (error_kind error ≡ OutOfMemory → e ≡ Unstarted.NoMemory) ×
        (error_kind error ≢ OutOfMemory → e ≡ Unstarted.NoArguments) };

    fn from(e: io::Error) -> Unstarted {
        match e.kind() {
            io::ErrorKind::OutOfMemory => Unstarted::NoMemory,
            _ => Unstarted::NoArguments,
        }
    }
}
