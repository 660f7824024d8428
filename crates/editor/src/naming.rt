ghost use Rattle.std.specs.Prelude.{◌≡◌, true, Ok, Err, if◌then◌else◌};
ghost use Rattle.pg_text.specs.Failure.{Answers};
ghost use Rattle.editor.specs.Message.{is_file_path, is_file_target, is_own_path, named_path};

use crate::EditorFault;
use percent_encoding::percent_decode;
use pg_text::{Failure, Path, resolve};
use std::alloc::Global;

const FILES: &[u8] = b"/_editor/files/";

// Whether a target names a file, by what was sent.
#[tactic(auto, unfolding(crate::specs::Message::is_file_target))]
pub(crate) fn is_file_target(target: &[u8]) -> bool
    ensures { result ≡ is_file_target target.now }
{
    target.starts_with(FILES) && !target.contains(&b'?')
}

// The path of the file that a target names.
#[tactic(auto, using(crate::proofs::TargetLemmas::file_target_is_long))]
pub(crate) fn file_path(alloc: Global, target: &[u8]) -> Result<Path, Failure<EditorFault>>
    requires { is_file_target target.now ≡ true }
    ensures { Answers (if is_file_path (named_path target.now) then Ok (named_path target.now)
        else Err EditorFault.BadPath) result }
{
    let mut decoded = Vec::new(alloc);
    percent_decode(&target[FILES.len() - 1..]).append_to(&mut decoded)?;
    path_in(alloc, &decoded)
}

// The path that bytes are.
fn path_in(alloc: Global, bytes: &[u8]) -> Result<Path, Failure<EditorFault>>
    ensures { Answers (if is_file_path bytes.now then Ok bytes.now else Err EditorFault.BadPath) result }
{
    let Ok(text) = str::from_utf8(bytes) else {
        return Err(Failure::Fault(EditorFault::BadPath));
    };
    own_path(alloc, text)
}

// The path that a text stands for, where it stands for itself.
fn own_path(alloc: Global, text: &str) -> Result<Path, Failure<EditorFault>>
    ensures { Answers (if is_own_path text.now then Ok text.now else Err EditorFault.BadPath) result }
{
    match resolve(alloc, None, text) {
        Ok(path) if path.as_str() == text => Ok(path),
        Ok(_) | Err(Failure::Fault(_)) => Err(Failure::Fault(EditorFault::BadPath)),
        Err(Failure::NoMemory) => Err(Failure::NoMemory),
    }
}
