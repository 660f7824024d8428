// A cell by the numbers under which its instruction, its place and its shape stand in the tables of
// its code.
#[derive(Clone, Copy)]
pub(crate) struct Step {
    pub instr: u32,
    pub place: u32,
    pub shape: u32,
}
