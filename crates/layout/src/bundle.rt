// The opened bundle: how many records there are, and where the sections begin.
ghost use Rattle.std.specs.Prelude.{◌≡◌, ◌<◌, ◌≤◌, ◌/◌, length};
ghost use Rattle.layout.specs.Tables.{Tables, Counted, bundle_of};

use crate::directory::{
    CLASS_SECTION, CODE_SECTION, FUNCTION_SECTION, METHOD_SECTION, PARENT_SECTION,
    SIGNATURE_SECTION, section_at, section_len,
};

// A section of records: where it begins, and how many there are.
#[derive(Clone, Copy)]
pub struct Section {
    pub at: usize,
    pub count: usize,
}

// Section k as records of so many bytes each.
fn counted(bytes: &[u8], k: usize, width: usize) -> Section
    requires in_bounds { 24 ≤ length bytes.now }
    requires k_bound { k < 6 }
    requires width_nonzero { 0 < width }
    ensures { Counted bytes.now k width result }
{
    let at = section_at(bytes, k);
    let count = section_len(bytes, k) / width;
    Section { at, count }
}

// The counts of records, and where each section begins; of parents and code, how many bytes there are.
#[derive(Clone, Copy)]
pub struct Bundle {
    pub classes: usize,
    pub functions: usize,
    pub signatures: usize,
    pub methods: usize,
    pub class_at: usize,
    pub parent_at: usize,
    pub function_at: usize,
    pub signature_at: usize,
    pub method_at: usize,
    pub code_at: usize,
    pub parent_len: usize,
    pub code_len: usize,
}

impl Bundle {
    // The limits of a bundle (M 2.3).
    pub const CLASSES: usize = 128;

    pub const FUNCTIONS: usize = 64;

    pub const SIGNATURES: usize = 256;

    pub const METHODS: usize = 512;

    pub const PLACES: usize = 3;

    // The bytes of a record, and where a record has its places and what stands after them.
    pub const CLASS_BYTES: usize = 6;

    pub const SIGNATURE_PLACES: usize = 1;

    pub const SIGNATURE_RESULT: usize = Self::SIGNATURE_PLACES + Self::PLACES;

    pub const SIGNATURE_BYTES: usize = Self::SIGNATURE_RESULT + 1;

    pub const METHOD_SPECIALISERS: usize = 1;

    pub const METHOD_DECLARED: usize = Self::METHOD_SPECIALISERS + Self::PLACES;

    pub const METHOD_RESULT: usize = Self::METHOD_DECLARED + Self::PLACES;

    pub const METHOD_BODY: usize = Self::METHOD_RESULT + 1;

    pub const METHOD_BODY_LENGTH: usize = Self::METHOD_BODY + 2;

    pub const METHOD_BYTES: usize = Self::METHOD_BODY_LENGTH + 2;

    // The bundle whose six sections are counted.
    pub fn new(
        classes: Section,
        parents: Section,
        functions: Section,
        signatures: Section,
        methods: Section,
        code: Section,
    ) -> Bundle
        ensures { result ≡ bundle_of classes parents functions signatures methods code }
    {
        Bundle {
            classes: classes.count,
            functions: functions.count,
            signatures: signatures.count,
            methods: methods.count,
            class_at: classes.at,
            parent_at: parents.at,
            function_at: functions.at,
            signature_at: signatures.at,
            method_at: methods.at,
            code_at: code.at,
            parent_len: parents.count,
            code_len: code.count,
        }
    }

    // The bundle that the directory describes.
    pub fn of_directory(bytes: &[u8]) -> Bundle
        requires { 24 ≤ length bytes.now }
        ensures { Tables bytes.now result }
    {
        let classes = counted(bytes, CLASS_SECTION, Self::CLASS_BYTES);
        let parents = counted(bytes, PARENT_SECTION, 1);
        let functions = counted(bytes, FUNCTION_SECTION, 1);
        let signatures = counted(bytes, SIGNATURE_SECTION, Self::SIGNATURE_BYTES);
        let methods = counted(bytes, METHOD_SECTION, Self::METHOD_BYTES);
        let code = counted(bytes, CODE_SECTION, 1);
        Bundle::new(classes, parents, functions, signatures, methods, code)
    }
}
