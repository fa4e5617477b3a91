// Where the script and the input come from.
ghost use Rattle.std.specs.Prelude.{◌≡◌, ◌≢◌, ◌≤◌, take, vec_len, IfOk, IfErr, IfSome};
ghost use Rattle.std.specs.IoError.{error_kind};

use super::reading::read_at_most;
use std::alloc::Global;
use std::io::{ErrorKind, Read};
use std::rt::Files;
use std::{fs, io};

// A script of more bytes is refused.
const TEXT: usize = 65535;

// The file, if there is one. A guard takes out the one error that is no failure, so the others go on by an arm and by no `?`.
fn if_there<F>(opened: io::Result<F>) -> io::Result<Option<F>>
    ensures there { IfOk opened (λ file. result ≡ Ok (Some file)) }
    ensures missing { IfErr opened (λ e. error_kind e ≡ ErrorKind.NotFound → result ≡ Ok None) }
    ensures other { IfErr opened (λ e. error_kind e ≢ ErrorKind.NotFound → result ≡ Err e) }
{
    match opened {
        Ok(file) => Ok(Some(file)),
        Err(e) if e.kind() == ErrorKind::NotFound => Ok(None),
        Err(e) => Err(e),
    }
}

// The script in an open file. Of a longer one than a script may be, one byte more is read, so that it is refused.
fn script_in<F: Read + Drop>(heap: Global, file: F) -> io::Result<Vec<u8>>
    ensures within { IfOk result (λ bytes. vec_len bytes ≤ 65536) }
    ensures bytes { IfOk result (λ bytes. IfSome (F.remaining file) (λ all. bytes.items ≡ take 65536 all)) }
{
    read_at_most(heap, file, TEXT + 1)
}

// The script in a file; a missing one is empty.
pub fn read_script<R: Files + AllocGlobal>(rt: &R, path: &str) -> io::Result<Vec<u8>>
    ensures { IfOk result (λ bytes. vec_len bytes ≤ 65536) }
{
    match if_there(fs::open(rt, path))? {
        Some(file) => script_in(rt.alloc(), file),
        None => Ok(Vec::new(rt.alloc())),
    }
}

// The first bytes of an input, as many as a run may read.
fn input_in<F: Read + Drop>(heap: Global, input: F) -> io::Result<Vec<u8>>
    ensures within { IfOk result (λ bytes. vec_len bytes ≤ 65535) }
    ensures bytes { IfOk result (λ bytes. IfSome (F.remaining input) (λ all. bytes.items ≡ take 65535 all)) }
{
    read_at_most(heap, input, TEXT)
}

// The first bytes of standard input, as many as a run may read.
pub fn read_input<R: Input + AllocGlobal>(rt: &R) -> io::Result<Vec<u8>>
    ensures { IfOk result (λ bytes. vec_len bytes ≤ 65535) }
{
    input_in(rt.alloc(), rt.reader())
}
