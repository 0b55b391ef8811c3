//! A report.

/// The report of one controller and one switch to which nothing happens.
pub const NOTHING: &str = r"ravana report 1
setup 1 1
ports 0 2
local c0 suspect 1
post c0 0 1 0
letter s0 041800180000000000000002000000000000000000000001
draw s0 0 0
post s0 1 1 0
letter c0 041900180000000000000002000000000000000000000001
draw c0 1 0
log 0 0
switch 0 generation 1 master c0 life 0 events 0 held 0 executed 0 rows 1 sent 0
row 0 0 00010004 00000010fffffffdffff000000000000
end script 0 closing 3 events 0 log 0 commands 0 rows 1
";
