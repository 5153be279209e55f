// Module records, as ECMA-262 has them, with the byte of each entry in the module's payload.
use names::Name;

// A specifier, with the byte of its first mention.
#[derive(Drop)]
pub struct Request {
    pub specifier: Name,
    pub byte: usize,
}

#[derive(Drop)]
pub struct ImportEntry {
    // the index of a request
    pub request: usize,
    pub import_name: Name,
    pub local_name: Name,
    pub byte: usize,
}

#[derive(Drop)]
pub struct LocalExport {
    pub export_name: Name,
    // the index of a cell
    pub cell: usize,
    pub byte: usize,
}

#[derive(Drop)]
pub struct IndirectExport {
    pub export_name: Name,
    pub request: usize,
    pub import_name: Name,
    pub byte: usize,
}

#[derive(Drop)]
pub struct StarExport {
    pub request: usize,
    pub byte: usize,
}

// A cell that the module declares.
#[derive(Drop)]
pub struct CellEntry {
    pub name: Name,
    pub byte: usize,
}

// Its entries name requests and cells by index: a record cannot borrow from itself.
#[derive(Drop)]
pub struct Record {
    pub requests: Vec<Request>,
    pub imports: Vec<ImportEntry>,
    pub locals: Vec<LocalExport>,
    pub indirects: Vec<IndirectExport>,
    pub stars: Vec<StarExport>,
    pub cells: Vec<CellEntry>,
}
