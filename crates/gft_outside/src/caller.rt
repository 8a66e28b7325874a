/// One peer that came: its control connection in both directions, its link and its clock.
#[derive(Drop)]
pub struct Caller<C, W, K, T> {
    pub control: C,
    pub out: W,
    pub link: K,
    pub clock: T,
}
