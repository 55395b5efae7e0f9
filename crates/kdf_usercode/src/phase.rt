//! How far a deck has come, and which statement may stand where.

ghost use Rattle.std.specs.Prelude.{◌≡◌, get_or, set, true, false};
ghost use Rattle.kdf_usercode.specs.Phase.{is_ended, is_new, is_heading, is_program, is_in_place, behind_constants, stage_with, declared_with, phase_with};

use crate::forms::{Form, is_constant};
use crate::stores::declared_group;

/// How far a deck has come.
#[derive(Clone, Copy)]
pub enum Stage {
    /// Before `PROGRAM`.
    Heading,
    /// Behind the begin of a part and its constants so far.
    Constants,
    /// Behind the constants of a part.
    Body,
    /// Behind `FINISH`.
    Ended,
}

/// How far a deck has come, and which groups of stores Y are declared.
#[derive(Clone, Copy)]
pub struct Phase {
    pub stage: Stage,
    pub declared: [bool; 27],
}

impl Phase {
    pub fn is_ended(self) -> bool
        ensures { result ≡ is_ended self }
    {
        matches!(self.stage, Stage::Ended)
    }
}

/// Whether this is a group, and one that isn't declared yet.
fn is_new(declared: &[bool; 27], group: Option<u8>) -> bool
    ensures { result ≡ is_new declared.now group }
{
    match group {
        Some(group) => !declared.get(usize::from(group)).copied().unwrap_or(false),
        None => false,
    }
}

fn is_heading(declared: &[bool; 27], form: Form) -> bool
    ensures { result ≡ is_heading declared.now form }
{
    match form {
        Form::Program | Form::ProgramStores => true,
        Form::Access {
            direction,
            name,
            suffix,
        } => { is_new(declared, declared_group(direction, name, suffix)) }
        _ => false,
    }
}

fn is_program(form: Form) -> bool
    ensures { result ≡ is_program form }
{
    matches!(form, Form::Program | Form::ProgramStores)
}

/// Whether the statement stands in its place in the sequence of a deck.
pub fn is_in_place(phase: Phase, form: Form) -> bool
    ensures { result ≡ is_in_place phase form }
{
    match phase.stage {
        Stage::Heading => is_heading(&phase.declared, form),
        Stage::Constants => !is_program(form),
        _ => !is_program(form) && !is_constant(form),
    }
}

fn behind_constants(stage: Stage) -> Stage
    ensures { result ≡ behind_constants stage }
{
    match stage {
        Stage::Constants => Stage::Body,
        _ => stage,
    }
}

fn stage_with(stage: Stage, form: Form) -> Stage
    ensures { result ≡ stage_with stage form }
{
    match form {
        Form::Program | Form::ProgramStores | Form::Part | Form::PartStores => Stage::Constants,
        Form::Finish => Stage::Ended,
        Form::Constant { .. } => stage,
        _ => behind_constants(stage),
    }
}

fn with_group(declared: [bool; 27], group: u8) -> [bool; 27]
    ensures { result ≡ set declared group true }
{
    let mut declared = declared;
    if usize::from(group) < declared.len() {
        declared[usize::from(group)] = true;
    }
    declared
}

fn declared_with(declared: [bool; 27], form: Form) -> [bool; 27]
    ensures { result ≡ declared_with declared form }
{
    if let Form::Access {
        direction,
        name,
        suffix,
    } = form
    {
        if let Some(group) = declared_group(direction, name, suffix) {
            return with_group(declared, group);
        }
    }
    declared
}

/// How far the deck has come with one statement more.
pub fn phase_with(phase: Phase, form: Form) -> Phase
    ensures { result ≡ phase_with phase form }
{
    Phase {
        stage: stage_with(phase.stage, form),
        declared: declared_with(phase.declared, form),
    }
}
