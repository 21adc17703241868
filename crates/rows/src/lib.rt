// The rows of a project: what each of them is, and what it imports.
#![tactic(auto)]

pub mod graph;

// What a row stands for: a module of the project, or something outside of it.
#[derive(Clone, Copy, PartialEq, Eq, Debug, Default)]
pub enum Sort {
    #[default]
    Normal,
    External,
}

// How a module exports: not at all, as an ES module, or as CommonJS.
#[derive(Clone, Copy, PartialEq, Eq, Debug, Default)]
pub enum ExportsKind {
    #[default]
    None,
    Esm,
    CommonJs,
}

// How a record refers to its target. Import and Require are static.
#[derive(Clone, Copy, PartialEq, Eq, Debug)]
pub enum ImportKind {
    Import,
    Require,
    DynamicImport,
    HotAccept,
}

// One import record: its kind, and the row that it leads to, if it was resolved.
#[derive(Clone, Copy, PartialEq, Eq, Debug)]
pub struct ImportRecord {
    pub kind: ImportKind,
    pub target: Option<u16>,
}

// What a module says of itself.
#[derive(Clone, Copy, PartialEq, Eq, Debug, Default)]
pub struct Flags {
    pub self_accepting: bool,
    pub lazy_export: bool,
    pub entry: bool,
}

// A row, besides its names and its import records.
#[derive(Clone, Copy, PartialEq, Eq, Debug, Default)]
pub struct Facts {
    pub sort: Sort,
    pub flags: Flags,
    pub exports: ExportsKind,
    pub mark: u64,
}
