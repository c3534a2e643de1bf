//! The options, each declared once: the reader of words and the text of the help both go by this.

use wblock_line::QUIET_NAME;

/// The value that an option has where it is not given.
#[derive(Clone, Copy, Debug, PartialEq, Eq)]
pub struct Usual {
    /// The number.
    pub number: u32,
    /// How it is spelled.
    pub word: &'static str,
}

/// An option whose value is a number.
#[derive(Clone, Copy, Debug, PartialEq, Eq)]
pub struct NumberOption {
    /// Its word on the line.
    pub word: &'static str,
    /// Its name, which is its word without the dashes.
    pub name: &'static str,
    /// The least value.
    pub least: u64,
    /// The most.
    pub most: u64,
    /// Its value where it is not given; None where it has to be given, or has no value then.
    pub usual: Option<Usual>,
    /// What it means, with its range.
    pub help: &'static str,
}

/// An option whose value is the name of a file.
#[derive(Clone, Copy, Debug, PartialEq, Eq)]
pub struct FileOption {
    /// Its word on the line.
    pub word: &'static str,
    /// Its name, which is its word without the dashes.
    pub name: &'static str,
    /// What stands for its value in the help.
    pub value: &'static str,
    /// What it means.
    pub help: &'static str,
}

/// An option without a value.
#[derive(Clone, Copy, Debug, PartialEq, Eq)]
pub struct Switch {
    /// Its word without the dashes.
    pub name: &'static str,
    /// What it means.
    pub help: &'static str,
}

/// No progress. The program takes its word out of the line before any command reads it.
pub const QUIET: Switch = Switch {
    name: QUIET_NAME,
    help: "Says nothing of the progress on standard error",
};

/// What is told, as JSON.
pub const JSON: Switch = Switch {
    name: "json",
    help: "Prints the same as one JSON object on a line",
};

/// The numbers of cells, signed.
pub const SIGNED: Switch = Switch {
    name: "signed",
    help: "Shows keys and numbers of cells signed, as lines of calls take them",
};

/// The text of a module that need not be valid.
pub const UNCHECKED: Switch = Switch {
    name: "unchecked",
    help: "Writes the text of a module that is not valid, too, with the numbers that `check` names",
};

/// A world in the place of one that is there.
pub const FORCE: Switch = Switch {
    name: "force",
    help: "Writes the new world in the place of a file that is there",
};

/// The papers' way to run calls.
pub const BOOSTED: Switch = Switch {
    name: "boosted",
    help: "Lets workers run the calls over boosted storage, as the papers describe it",
};

/// The bytes of the heap of `check`.
pub const HEAP: NumberOption = NumberOption {
    word: "--heap",
    name: "heap",
    least: 1_024,
    most: 16_777_216,
    usual: None,
    help: "The bytes of a heap for the module's tree, 1024 to 16777216; if not given, there is no bound",
};

/// The fuel of a block.
pub const FUEL: NumberOption = NumberOption {
    word: "--fuel",
    name: "fuel",
    least: 0,
    most: u64::MAX,
    usual: None,
    help: "The block's fuel, 0 to 18446744073709551615: the limits of its calls add up to at most this",
};

/// How many workers run calls where nothing is said of it.
pub const USUAL_WORKERS: Usual = Usual {
    number: 4,
    word: "4",
};

/// How many workers run calls.
pub const WORKERS: NumberOption = NumberOption {
    word: "--workers",
    name: "workers",
    least: 1,
    most: 64,
    usual: Some(USUAL_WORKERS),
    help: "How many threads run calls, 1 to 64",
};

/// How often a call is tried at most where nothing is said of it.
pub const USUAL_TRIES: Usual = Usual {
    number: 3,
    word: "3",
};

/// How often a call is tried.
pub const TRIES: NumberOption = NumberOption {
    word: "--tries",
    name: "tries",
    least: 1,
    most: 16,
    usual: Some(USUAL_TRIES),
    help: "With --boosted how often a call is tried that meets a conflict, 1 to 16; else it has no effect",
};

/// The file of the block in which a call is debugged.
pub const BLOCK: FileOption = FileOption {
    word: "--block",
    name: "block",
    value: "BLOCK",
    help: "The file of a block: the call runs over the cells that it meets in it; if not given, it runs alone over WORLD",
};

/// The file of the world that `deploy` goes on from.
pub const ONTO: FileOption = FileOption {
    word: "--onto",
    name: "onto",
    value: "OLD",
    help: "The file of a world: the modules become contracts behind its own, over its cells; it may be WORLD",
};

/// The file of the calls of a block that is shown.
pub const CALLS: FileOption = FileOption {
    word: "--calls",
    name: "calls",
    value: "CALLS",
    help: "The file of the block's calls, in text: each position is shown with its call",
};

/// The file of the picture of a block.
pub const SVG: FileOption = FileOption {
    word: "--svg",
    name: "svg",
    value: "PICTURE",
    help: "The file of a picture of the block, an SVG, to be written in place of the text; another than FILE, and not with --calls",
};

/// The file of the world after a block that is accepted.
pub const NEXT: FileOption = FileOption {
    word: "--next",
    name: "next",
    value: "NEXT",
    help: "The file of the world after the block, to be written where the block is accepted; neither CALLS nor BLOCK, but it may be WORLD",
};
