use outer_traits::{Gate, Point};

/// A gate that holds nobody and is told nothing, for a worker who has no other beside it.
#[derive(Clone, Copy, Debug)]
pub struct NoGate;

impl Gate for NoGate {
    fn pass(&self, _worker: u8, _point: Point) {}
}

/// A gate that several workers pass.
#[derive(Drop)]
pub struct SharedGate<'g, G> {
    pub gate: &'g G,
}

impl<'g, G: Gate> Gate for SharedGate<'g, G> {
    fn pass(&self, worker: u8, point: Point) {
        self.gate.pass(worker, point);
    }
}
