//! An image of blocks and a ring of the writes to it that have not landed yet: the basis of the devices that are simulated
//! in the memory of the host. The contracts of `Ring` state exactly what is read, which write lands next, and what stays
//! queued.
//!
//! Open specs/Held.antt first, and src/write_queue/ring.rt.
mod queue;
mod ring;
mod room;

pub use ring::Ring;
