// The fields of a row that are packed as a code of one byte.
ghost use Rattle.std.specs.Prelude.{◌≡◌, ℕ, List, Some, Option as Maybe, refl};
ghost use Rattle.packed_layout.specs.Codec.{Codec, bytes, number, via, find};
ghost use Rattle.packed_layout.specs.Layout.{sort, sorts, sort_code, exports_kind, exports_kinds, exports_code, import_kind, import_kinds, kind_code, flags, flags_code, flags_in};
ghost use Rattle.packed_layout.specs.Codes.{sort_known, exports_known, kind_known, flags_known, flags_only, flags_read, found};

use rows::{ExportsKind, Flags, ImportKind, Sort};

const ALL_FLAGS: u8 = 7;

// A value that is packed as one byte, its code.
pub trait Coded: Copy {
    ghost packed: { Codec Self };

    ghost code: { Self → ℕ };

    // the value of a code; not every byte is one
    ghost decoded: { ℕ → Maybe Self };

    fn code(self) -> u8
        ensures { result ≡ code self };

    fn from_code(byte: u8) -> Option<Self>
        ensures { result ≡ decoded byte };

    ghost reads: { (s : List ℕ) → packed.read s ≡ (via (number 1) decoded code).read s };

    ghost writes: { (x : Self) → packed.write x ≡ bytes 1 (code x) };

    // a value's code is read as the value, and no other byte is
    ghost known: { (x : Self) → decoded (code x) ≡ Some x };

    ghost only: { (n : ℕ) (x : Self) → decoded n ≡ Some x → n ≡ code x };
}

impl Coded for Sort {
    ghost packed = { sort };

    ghost code = { sort_code };

    ghost decoded = { find sort_code sorts };

    ghost reads = { λ s. refl };

    ghost writes = { λ x. refl };

    ghost known = { sort_known };

    ghost only = { found sort_code sorts };

    fn code(self) -> u8 {
        match self {
            Sort::Normal => 0,
            Sort::External => 1,
        }
    }

    fn from_code(byte: u8) -> Option<Sort> {
        match byte {
            0 => Some(Sort::Normal),
            1 => Some(Sort::External),
            _ => None,
        }
    }
}

impl Coded for ExportsKind {
    ghost packed = { exports_kind };

    ghost code = { exports_code };

    ghost decoded = { find exports_code exports_kinds };

    ghost reads = { λ s. refl };

    ghost writes = { λ x. refl };

    ghost known = { exports_known };

    ghost only = { found exports_code exports_kinds };

    fn code(self) -> u8 {
        match self {
            ExportsKind::None => 0,
            ExportsKind::Esm => 1,
            ExportsKind::CommonJs => 2,
        }
    }

    fn from_code(byte: u8) -> Option<ExportsKind> {
        match byte {
            0 => Some(ExportsKind::None),
            1 => Some(ExportsKind::Esm),
            2 => Some(ExportsKind::CommonJs),
            _ => None,
        }
    }
}

impl Coded for ImportKind {
    ghost packed = { import_kind };

    ghost code = { kind_code };

    ghost decoded = { find kind_code import_kinds };

    ghost reads = { λ s. refl };

    ghost writes = { λ x. refl };

    ghost known = { kind_known };

    ghost only = { found kind_code import_kinds };

    fn code(self) -> u8 {
        match self {
            ImportKind::Import => 1,
            ImportKind::Require => 2,
            ImportKind::DynamicImport => 3,
            ImportKind::HotAccept => 4,
        }
    }

    fn from_code(byte: u8) -> Option<ImportKind> {
        match byte {
            1 => Some(ImportKind::Import),
            2 => Some(ImportKind::Require),
            3 => Some(ImportKind::DynamicImport),
            4 => Some(ImportKind::HotAccept),
            _ => None,
        }
    }
}

// A bit for each flag.
impl Coded for Flags {
    ghost packed = { flags };

    ghost code = { flags_code };

    ghost decoded = { flags_in };

    ghost reads = { flags_read };

    ghost writes = { λ x. refl };

    ghost known = { flags_known };

    ghost only = { flags_only };

    fn code(self) -> u8 {
        u8::from(self.self_accepting) + 2 * u8::from(self.lazy_export) + 4 * u8::from(self.entry)
    }

    fn from_code(byte: u8) -> Option<Flags> {
        (byte <= ALL_FLAGS).then_some(Flags {
            self_accepting: byte & 1 != 0,
            lazy_export: byte & 2 != 0,
            entry: byte & 4 != 0,
        })
    }
}
