// Where a worker tells how far it is.

/// A place at which workers call, so that a test can hold them up there. Both calls return.
pub trait Gate {
    /// Before a morsel's rows are probed; no part is held.
    fn before_probe(&self, morsel: u32);

    /// While the part of this section is held, and its morsel was handed out.
    fn while_held(&self, section: u32, morsel: u32);
}

/// A gate at which nothing happens.
pub struct NoGate;

impl Gate for NoGate {
    fn before_probe(&self, _morsel: u32) {}

    fn while_held(&self, _section: u32, _morsel: u32) {}
}
