/// A machine file of a small mill.
pub const MACHINE: &str = "version = 1
step = 10000
ticks_per_second = 10000
max_rate = 400000
change = 1000
corner = 50000
turn = 1000000000
low = [0, 0, -100000000]
high = [300000000, 300000000, 0]
start = [0, 0, 0]
home28 = [0, 0, 0]
home30 = [0, 0, 0]
";

/// A tool table of two tools.
pub const TOOLS: &str = "version = 1
[[tool]]
number = 1
length = 20000000
radius = 3000000
offset = 20000000
[[tool]]
number = 2
length = 60000000
radius = 3000000
offset = 60000000
";
