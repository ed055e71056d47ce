// The two traits of the outside. A meaning that is `Some` is told, and one that is `None` isn't:
// code over the traits is proved for both, so what it promises of told files and texts holds of
// each implementation that tells them, and what it promises of faults holds of all.
ghost use Rattle.std.specs.Prelude.{◌≡◌, ℕ, ◌≤◌, List, Option, Err, IfOk, OnErr};
ghost use Rattle.syn_outside.specs.Faults.{Rose, HasCause, UnlessFailed};
ghost use Rattle.syn_outside.specs.Files.{File, ReadsPart, MayBegin, WritesSome};
ghost use Rattle.syn_outside.specs.Texts.{PutsSome};
ghost use Rattle.syn_outside.specs.declared.traits.Trouble.{Trouble};

/// Why a call to the outside came to nothing.
#[derive(Clone, Copy, Debug, PartialEq, Eq)]
pub enum Trouble {
    /// The outside gave an error, or a name isn't there.
    Failed,
    /// There was no memory for it.
    NoMemory,
}

/// Files that are read and written by name, a part at a time.
pub trait Cabinet {
    /// The files, where they are told.
    ghost files: { Self → Option (List File) };

    /// How many reads failed by the outside's fault, up to the last value of a `u64`.
    ghost read_faults: { Self → ℕ };

    /// How many writes failed so.
    ghost write_faults: { Self → ℕ };

    /// Reads bytes from place `at` of the file `name` into `buf`, and answers how many.
    ///
    /// It answers 0 with room in `buf` only where `at` isn't before the file's end. A name that
    /// isn't there is an error. What stands in `buf` behind the bytes stays; after an error `buf` may
    /// hold anything.
    fn read(&mut self, name: &str, at: u64, buf: &mut [u8]) -> Result<usize, Trouble>
        ensures bytes { IfOk result (ReadsPart (files self.old) name.now at buf.old buf.new) }
        ensures files { files self.new ≡ files self.old }
        ensures later { read_faults self.old ≤ read_faults self.new }
        ensures writes { write_faults self.new ≡ write_faults self.old }
        ensures cause { result ≡ Err Trouble.Failed →
            HasCause (read_faults self.old) (read_faults self.new) (files self.old) name.now }
        ensures quiet { UnlessFailed result (read_faults self.new ≡ read_faults self.old) };

    /// Makes the file `name` its first `at` bytes followed by first bytes of `piece`, and answers
    /// how many of `piece`.
    ///
    /// At place 0 the file is begun anew, and made where it wasn't there. It answers 0 only for an
    /// empty `piece`. After an error the files are as before.
    fn write(&mut self, name: &str, at: u64, piece: &[u8]) -> Result<usize, Trouble>
        requires { MayBegin (files self.old) name.now at }
        ensures files { IfOk result (WritesSome (files self.old) (files self.new) name.now at piece.now) }
        ensures err { OnErr result (files self.new ≡ files self.old) }
        ensures later { write_faults self.old ≤ write_faults self.new }
        ensures reads { read_faults self.new ≡ read_faults self.old }
        ensures cause { result ≡ Err Trouble.Failed → Rose (write_faults self.old) (write_faults self.new) }
        ensures quiet { UnlessFailed result (write_faults self.new ≡ write_faults self.old) };
}

/// A text that is put out a piece at a time.
pub trait Sink {
    /// The text so far, where it is told.
    ghost text: { Self → Option (List ℕ) };

    /// How many puts failed by the outside's fault, up to the last value of a `u64`.
    ghost faults: { Self → ℕ };

    /// Adds first bytes of `piece` to the text, and answers how many.
    ///
    /// It answers 0 only for an empty `piece`. After an error the text is as before.
    fn put(&mut self, piece: &[u8]) -> Result<usize, Trouble>
        ensures text { IfOk result (PutsSome (text self.old) (text self.new) piece.now) }
        ensures err { OnErr result (text self.new ≡ text self.old) }
        ensures later { faults self.old ≤ faults self.new }
        ensures cause { result ≡ Err Trouble.Failed → Rose (faults self.old) (faults self.new) }
        ensures quiet { UnlessFailed result (faults self.new ≡ faults self.old) };
}
