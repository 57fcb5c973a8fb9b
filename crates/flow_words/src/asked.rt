//! What a command line may ask for.

/// How the report of a run is to be told. The file is named as it was given.
#[derive(Clone, Copy, Debug, PartialEq, Eq)]
pub struct ReportCommand<'a> {
    /// The file to which it is written, where one is named; then none of it is printed.
    pub file: Option<&'a str>,
    /// Nothing is said of a run that finished with nothing left.
    pub quiet: bool,
    /// Where it is said, it is said in brief.
    pub brief: bool,
}

/// A page that is asked for.
#[derive(Clone, Copy, Debug, PartialEq, Eq)]
pub enum Page {
    /// The standard kinds.
    Kinds,
    /// What the program can be asked for.
    Help,
    /// Which version of the program it is.
    Version,
}

/// A run that is asked for. Files are named as they were given.
#[derive(Clone, Copy, Debug, PartialEq, Eq)]
pub struct RunCommand<'a> {
    /// The file of the network.
    pub net: &'a str,
    /// The file in which the journal of the run is kept, where one is named.
    pub journal: Option<&'a str>,
    /// The file to which the tapes of the run's own components are written, where one is named.
    pub tapes: Option<&'a str>,
    /// So many workers run it; without any one thread does.
    pub workers: u32,
    pub report: ReportCommand<'a>,
}

/// What a command line asks for. Files are named as they were given.
#[derive(Clone, Copy, Debug, PartialEq, Eq)]
pub enum Command<'a> {
    /// Run the network of a file.
    Run(RunCommand<'a>),
    /// Check the network of this file, and print its canonical spelling.
    Check(&'a str),
    /// Tell whether the plan of this network file is determinate.
    Judge(&'a str),
    /// Print this page.
    Page(Page),
    /// Make the turns again that a journal's file tells of the network of a file, with what the tapes of its own
    /// components tell, where a file of them is named.
    Replay {
        net: &'a str,
        journal: &'a str,
        tapes: Option<&'a str>,
    },
    /// Run the network that is made from this number, on the input that is made from it. Workers run it as they do a
    /// file's.
    Make {
        number: u32,
        workers: u32,
    },
}
