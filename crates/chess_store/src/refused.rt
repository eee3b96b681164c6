use crate::StoreFault;

/// A device that `Store::create` or `Store::open` hands back, and why.
#[derive(Drop)]
pub struct Refused<D> {
    pub dev: D,
    pub fault: StoreFault,
}
