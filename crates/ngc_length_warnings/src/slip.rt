/// A kind of mistake with length offsets.
#[derive(Clone, Copy)]
pub enum Kind {
    /// A feed that ends lower than it begins, with no offset in force, by a tool that has one.
    Missing,
    /// A feed with an offset in force that differs from that of the mounted tool.
    Other,
}

/// A mistake with its numbers: a tool's number, its offset and the offset in force, in nanometres.
#[derive(Clone, Copy)]
pub enum Slip {
    Missing { tool: u32, offset: i64 },
    Other { tool: u32, offset: i64, force: i64 },
}

/// A mistake with its line.
#[derive(Clone, Copy)]
pub struct Found {
    /// The number of the line in the file, from 1.
    pub line: u32,
    pub slip: Slip,
}

/// The mistakes of a kind in a program.
#[derive(Clone, Copy)]
pub struct Slips {
    pub first: Found,
    /// The number of commands with a mistake, at least 1.
    pub count: usize,
}
