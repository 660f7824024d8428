/// Where connections come in, and what answers them.
#[derive(Drop)]
pub struct Endpoint<'a, A, H> {
    pub listener: &'a A,
    pub handler: H,
}
