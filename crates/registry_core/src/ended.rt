/// The end of a warming: its generation, and the generation and the ticket from which it was warmed.
#[derive(Clone, Copy, Debug, PartialEq, Eq)]
pub struct Finish {
    pub generation: u32,
    pub from: Option<(u32, u32)>,
}

// One that was ended by the caller of this seat.
#[derive(Clone, Copy)]
pub(crate) struct Ended {
    pub(crate) seat: u32,
    pub(crate) finish: Finish,
}
