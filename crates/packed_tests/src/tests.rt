// What is read of each record, or the number of its refusal.
use packed::read::read_record;
use packed_layout::faults::RowFault;
use packed_rows::list::count_rows;
use packed_rows::{OpenFault, PackedRows};
use packer::{PackFault, Row};
use rows::{ExportsKind, Facts, Flags, ImportKind, ImportRecord, Sort};
use std::alloc::{AllocError, Global};
use std::test::Fail;

// The parts of a record, in or out of the limits, and the number by which it is refused, if it is.
#[derive(Clone, Copy)]
struct Shape {
    kind: u16,
    sort: u8,
    flags: u8,
    exports: u8,
    id_len: u16,
    stable_len: u16,
    count: u16,
    import_kind: u8,
    surplus: u16,
    refused: Option<u8>,
}

const GOOD: Shape = Shape {
    kind: 1,
    sort: 0,
    flags: 0,
    exports: 0,
    id_len: 3,
    stable_len: 2,
    count: 2,
    import_kind: 1,
    surplus: 0,
    refused: None,
};

const BARE: Shape = Shape {
    sort: 1,
    count: 0,
    ..GOOD
};

// Each field at its limits and one past them.
const SHAPES: [Shape; 36] = [
    GOOD,
    BARE,
    Shape {
        kind: 0,
        refused: Some(2),
        ..GOOD
    },
    Shape {
        kind: 2,
        refused: Some(2),
        ..GOOD
    },
    Shape {
        kind: 257,
        refused: Some(2),
        ..GOOD
    },
    Shape {
        kind: 2,
        sort: 9,
        refused: Some(2),
        ..GOOD
    },
    Shape {
        sort: 2,
        refused: Some(3),
        ..GOOD
    },
    Shape {
        sort: 255,
        refused: Some(3),
        ..GOOD
    },
    Shape { flags: 7, ..GOOD },
    Shape {
        flags: 8,
        refused: Some(3),
        ..GOOD
    },
    Shape {
        flags: 128,
        refused: Some(3),
        ..GOOD
    },
    Shape { exports: 2, ..GOOD },
    Shape {
        exports: 3,
        refused: Some(3),
        ..GOOD
    },
    Shape {
        id_len: 0,
        refused: Some(3),
        ..GOOD
    },
    Shape { id_len: 1, ..GOOD },
    Shape {
        id_len: 1024,
        ..GOOD
    },
    Shape {
        id_len: 1025,
        refused: Some(3),
        ..GOOD
    },
    Shape {
        stable_len: 0,
        refused: Some(3),
        ..GOOD
    },
    Shape {
        stable_len: 1,
        ..GOOD
    },
    Shape {
        stable_len: 1024,
        ..GOOD
    },
    Shape {
        stable_len: 1025,
        refused: Some(3),
        ..GOOD
    },
    Shape { count: 0, ..GOOD },
    Shape {
        count: 1024,
        ..GOOD
    },
    Shape {
        count: 1025,
        refused: Some(3),
        ..GOOD
    },
    Shape {
        id_len: 1024,
        stable_len: 1024,
        count: 1024,
        ..GOOD
    },
    Shape {
        import_kind: 0,
        refused: Some(3),
        ..GOOD
    },
    Shape {
        import_kind: 4,
        ..GOOD
    },
    Shape {
        import_kind: 5,
        refused: Some(3),
        ..GOOD
    },
    Shape {
        surplus: 1,
        refused: Some(3),
        ..GOOD
    },
    Shape {
        surplus: 3,
        refused: Some(3),
        ..GOOD
    },
    Shape {
        sort: 1,
        refused: Some(3),
        ..GOOD
    },
    Shape {
        flags: 1,
        refused: Some(3),
        ..BARE
    },
    Shape {
        exports: 1,
        refused: Some(3),
        ..BARE
    },
    Shape {
        id_len: 1024,
        stable_len: 1024,
        ..BARE
    },
    Shape {
        surplus: 32747,
        refused: Some(3),
        ..BARE
    },
    Shape {
        surplus: 32748,
        refused: Some(3),
        ..BARE
    },
];

fn push_name(v: &mut Vec<u8>, len: u16) -> Result<(), AllocError> {
    v.extend_from_slice(&len.to_le_bytes())?;
    v.resize(v.len() + usize::from(len), b'a')
}

// The record of a shape. Its mark is free, and so are its targets.
fn build(heap: Global, s: Shape) -> Result<Vec<u8>, AllocError> {
    let imports = 3 * u32::from(s.count);
    let size = 19 + u32::from(s.id_len) + u32::from(s.stable_len) + imports + u32::from(s.surplus);
    let mut v = Vec::new(heap);
    v.extend_from_slice(&size.to_le_bytes())?;
    v.extend_from_slice(&s.kind.to_le_bytes())?;
    v.extend_from_slice(&[5, 0, s.sort, s.flags, s.exports])?;
    v.extend_from_slice(&[1, 2, 3, 4, 5, 6, 7, 255])?;
    push_name(&mut v, s.id_len)?;
    push_name(&mut v, s.stable_len)?;
    v.extend_from_slice(&s.count.to_le_bytes())?;
    for _ in 0..s.count {
        v.extend_from_slice(&[s.import_kind, 255, 255])?;
    }
    v.resize(v.len() + usize::from(s.surplus), 0)?;
    Ok(v)
}

// The number by which the record at an offset is refused, if it is.
fn refused_at(bytes: &[u8], offset: usize) -> Option<u8> {
    read_record(bytes, offset)
        .err()
        .map(|at| RowFault::Record(at).number())
}

#[test]
fn every_field_at_its_limits(rt: HostRuntime) -> Result<(), Fail> {
    for s in SHAPES.iter() {
        let v = build(rt.alloc(), *s)?;
        assert_eq!(rt; refused_at(&v, 0), s.refused);
    }
    Ok(())
}

#[test]
fn every_cut_ends_inside(rt: HostRuntime) -> Result<(), Fail> {
    let v = build(rt.alloc(), GOOD)?;
    let bytes = v.as_slice();
    assert!(rt; bytes.len() == 36);
    assert_eq!(rt; refused_at(&bytes[0..0], 0), None);
    for n in 1..bytes.len() {
        assert_eq!(rt; refused_at(&bytes[0..n], 0), Some(1));
    }
    assert_eq!(rt; refused_at(bytes, 0), None);
    assert_eq!(rt; refused_at(bytes, 36), None);
    assert_eq!(rt; refused_at(bytes, 35), Some(1));
    Ok(())
}

// A length, in the header or in the payload, that is one less or one more than what follows it.
const LENGTHS: [(usize, u8, u8); 8] = [
    (0, 29, 3),
    (0, 31, 1),
    (19, 2, 3),
    (19, 4, 3),
    (24, 1, 3),
    (24, 3, 3),
    (28, 1, 3),
    (28, 3, 3),
];

#[test]
fn every_length_one_off(rt: HostRuntime) -> Result<(), Fail> {
    for (place, length, number) in LENGTHS.iter() {
        let mut v = build(rt.alloc(), GOOD)?;
        let Some(b) = v.get_mut(*place) else {
            return Err(Fail::new("no such place"));
        };
        *b = *length;
        assert_eq!(rt; refused_at(&v, 0), Some(*number));
    }
    Ok(())
}

// The fault is that of the first record which has one, at that record's offset.
#[test]
fn faults_are_told_where_they_stand(rt: HostRuntime) -> Result<(), Fail> {
    let heap = rt.alloc();
    let mut v = build(heap, GOOD)?;
    let second = build(heap, Shape { sort: 2, ..GOOD })?;
    v.extend_from_slice(&second)?;
    v.extend_from_slice(&[1, 2, 3])?;
    let told = count_rows(&v).map_err(|fault| (fault.number(), fault.offset()));
    assert_eq!(rt; told, Err((3, 36)));
    Ok(())
}

fn sample<'a>(id: &'a [u8], records: &'a [ImportRecord]) -> Row<'a> {
    Row {
        number: 7,
        facts: Facts {
            sort: Sort::Normal,
            flags: Flags {
                self_accepting: true,
                lazy_export: false,
                entry: true,
            },
            exports: ExportsKind::Esm,
            mark: 258,
        },
        id,
        stable_id: id,
        records,
    }
}

const RECORDS: &[ImportRecord] = &[
    ImportRecord {
        kind: ImportKind::Import,
        target: Some(3),
    },
    ImportRecord {
        kind: ImportKind::HotAccept,
        target: None,
    },
];

const UNFIT: &[ImportRecord] = &[ImportRecord {
    kind: ImportKind::Import,
    target: Some(65535),
}];

#[test]
fn a_short_page_is_refused_with_the_length(rt: HostRuntime) -> Result<(), Fail> {
    let mut page = vec![in rt.alloc(); 9u8; 40]?;
    let row = sample(b"ab", RECORDS);
    assert!(rt; page.len() == 40);
    assert_eq!(rt;
        row.pack(&mut page[0..34]),
        Err(PackFault::Short { wanted: 35 })
    );
    assert_eq!(rt; page.get(0).copied(), Some(9));
    assert_eq!(rt; row.pack(&mut page), Ok(35));
    assert_eq!(rt; page.get(34).copied(), Some(255));
    assert_eq!(rt; page.get(35).copied(), Some(9));
    assert_eq!(rt; refused_at(&page, 0), None);
    Ok(())
}

#[test]
fn what_does_not_fit_is_not_packed(rt: HostRuntime) -> Result<(), Fail> {
    let mut page = vec![in rt.alloc(); 0u8; 64]?;
    assert_eq!(rt; sample(b"", RECORDS).pack(&mut page), Err(PackFault::Unfit));
    assert_eq!(rt; sample(b"a", UNFIT).pack(&mut page), Err(PackFault::Unfit));
    Ok(())
}

// A list is opened over as many places as it has rows, and no fewer.
#[test]
fn places_are_counted(rt: HostRuntime) -> Result<(), Fail> {
    let heap = rt.alloc();
    let mut v = build(heap, GOOD)?;
    let second = build(heap, BARE)?;
    v.extend_from_slice(&second)?;
    match PackedRows::open(&v, Vec::new(heap)) {
        Ok(_) => return Err(Fail::new("rows were opened without places")),
        Err(u) => assert_eq!(rt; u.cause, OpenFault::Short { wanted: 2 }),
    }
    match PackedRows::open(&v, Vec::with_capacity(heap, 2)?) {
        Ok(rows) => {
            assert_eq!(rt; rows.len(), 2);
            assert!(rt; rows.row(1).is_some());
            assert!(rt; rows.row(2).is_none());
            Ok(())
        }
        Err(_) => Err(Fail::new("a good list was not opened")),
    }
}
