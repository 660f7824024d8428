// Where a code runs.
ghost use Rattle.std.specs.Prelude.{◌≡◌};
ghost use Rattle.page_meaning.specs.Context.{is_strict};
ghost use Rattle.page_table.specs.Seat.{code_of, here_of, page_run_of, program_of as program_in};
ghost use Rattle.run_world.specs.Params.{params_of};
ghost use Rattle.run_world.specs.Programs.{program_of};
ghost use Rattle.run_world.specs.Seats.{params_at, seat_of};

use crate::params::Params;
use crate::program::{Program, TagProgram};
use page_code::{CallBody, Fragment, PackedCode};
use pg_text::Text;
use tag_decl::VarScope;

/// A variable that a tag file gives its caller: its name there, its name at the caller, and when it
/// is copied.
#[derive(Drop)]
pub struct Export {
    pub own: Text,
    pub outer: Text,
    pub scope: VarScope,
}

/// A call of a tag file: the variables that it gives, the body and the fragments that it got, the
/// place in the caller's code from which theirs are counted, and the frame of its caller.
#[derive(Drop)]
pub struct CallSeat<'a> {
    pub tag: &'a TagProgram,
    pub exports: &'a [Export],
    pub body: &'a CallBody,
    pub fragments: &'a [Fragment],
    pub behind: usize,
    pub frame: u32,
}

/// A page with its parameters, or a tag file that was called from somewhere in it.
#[derive(Drop)]
pub enum Seat<'a> {
    InPage(&'a Program, &'a Params<'a>),
    InTag(&'a CallSeat<'a>, &'a Seat<'a>),
}

impl<'a> Seat<'a> {
    /// The code that runs.
    pub fn code(&self) -> &'a PackedCode
        ensures { result.now ≡ code_of (seat_of self.now) }
    {
        match self {
            Seat::InPage(program, _) => program.code.code(),
            Seat::InTag(call, _) => call.tag.code.code(),
        }
    }

    /// The program of the page run.
    pub fn program(&self) -> &'a Program
        ensures { program_of result.now ≡ program_in (seat_of self.now) }
    {
        match self {
            Seat::InPage(program, _) => program,
            Seat::InTag(_, caller) => caller.program(),
        }
    }

    /// The parameters of the page run.
    pub fn params(&self) -> &'a Params<'a>
        ensures found { result.now ≡ params_at self.now }
        ensures list { params_of result.now ≡ (page_run_of (seat_of self.now)).params }
    {
        match self {
            Seat::InPage(_, params) => params,
            Seat::InTag(_, caller) => caller.params(),
        }
    }

    /// Whether a name that is found nowhere is a fault.
    pub fn is_strict(&self) -> bool
        ensures { result ≡ is_strict (here_of (seat_of self.now)) }
    {
        match self {
            Seat::InPage(program, _) => program.settings.not_found_is_fault,
            Seat::InTag(call, _) => call.tag.settings.not_found_is_fault,
        }
    }
}
