//! How a component's box lies.

/// LEF/DEF 5.8, "Specifying Orientation". E, W, FE and FW exchange width and height.
#[derive(Clone, Copy, Debug, Drop, PartialEq, Eq)]
pub enum Orient {
    N,
    S,
    E,
    W,
    FN,
    FS,
    FE,
    FW,
}
