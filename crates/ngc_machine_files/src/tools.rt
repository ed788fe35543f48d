ghost use Rattle.ngc_machine_files.specs.Ranges.{AreTools};

use crate::name::Name;
use crate::parts::Parts;
use ngc_fixed_length::Nm;
use std::alloc::{AllocError, Allocator};

/// A tool of the table. Lengths are in nanometres.
#[derive(Clone, Copy, PartialEq, Eq)]
pub struct Tool {
    /// The tool's number, 1 to 9,999.
    pub number: u32,
    /// The tool length offset that G43 uses, -10^9 to 10^9.
    pub offset: Nm,
    /// The height of the lowest part's bottom relative to the spindle nose, -10^9 to 0.
    pub bottom: Nm,
    /// The parts of the body, from the bottom up.
    pub parts: Parts,
    pub name: Name,
}

/// A tool table: at most 1,000 tools with different numbers.
#[derive(Drop)]
pub struct Tools<A: Allocator> {
    pub(crate) tools: Vec<Tool, A>,
    ghost in_range: { AreTools tools.items },
}

impl<A: Allocator> Tools<A> {
    ghost use Rattle.std.specs.Prelude.{◌≡◌, [], IfSome};
    ghost use Rattle.ngc_machine_files.specs.Ranges.{IsTool};
    ghost use Rattle.ngc_machine_files.specs.Tools.{tools_of, tool_at};

    /// Returns a table without tools. It allocates nothing.
    pub fn empty(alloc: A) -> Tools<A>
        ensures { tools_of result ≡ [] }
    {
        Tools {
            tools: Vec::new(alloc),
        }
    }

    /// Returns the tools, in the order of the table.
    pub fn tools(&self) -> &[Tool]
        ensures tools { result.now ≡ tools_of self.now }
        ensures range { AreTools result.now }
    {
        self.tools.as_slice()
    }

    /// Returns the tool of a number, or `None` if the table has none.
    pub fn find(&self, number: u32) -> Option<Tool>
        ensures found { result ≡ tool_at (tools_of self.now) number }
        ensures range { IfSome result IsTool }
    {
        self.tools
            .iter()
            .find(|tool| tool.number == number)
            .copied()
    }
}

impl<A: Allocator> Tools<A> {
    ghost use Rattle.std.specs.Prelude.{◌≡◌, IfOk};
    ghost use Rattle.ngc_machine_files.specs.Tools.{tools_of};

    /// Returns a copy of the table in another allocator's memory. It fails if memory is refused.
    pub fn copy<B: Allocator>(&self, alloc: B) -> Result<Tools<B>, AllocError>
        ensures same { IfOk result (λ t. tools_of t ≡ tools_of self.now) }
    {
        let tools = Vec::from_slice(alloc, self.tools())?;
        Ok(Tools { tools })
    }
}
