/// What is judged, and how.
#[derive(Clone, Copy, Debug)]
pub struct Inputs<'a> {
    /// The bytes of the netlist's file.
    pub netlist: &'a [u8],
    /// The bytes of the label file.
    pub labels: &'a [u8],
    /// The bytes of the program's file, if there is one.
    pub program: Option<&'a [u8]>,
    /// Whether the program's file is one of words, and not of assembly.
    pub word_file: bool,
    /// The name of the top module; without one the netlist has a single module.
    pub top: Option<&'a str>,
    /// How many probes there are at most, from 1 to 64.
    pub order: u32,
    /// How many cycles a probe lasts, from 1 to 64.
    pub window: u32,
    /// How many cycles are run, from 1 to 65,536.
    pub cycles: u32,
    /// How many lines the search may derive, from 1 to 1,000,000,000.
    pub steps: u64,
    /// How many lines its shortest run between two restarts derives, from 1 to 1,000,000,000.
    pub restart: u64,
}
