//! Words of command lines.
use crate::{Request, request_of};
use owner_map::OwnerMap;
use std::alloc::{AllocError, Global};
use std::test::Fail;

// What a line of words, with single spaces between them, asks for.
fn asked(alloc: Global, line: &str) -> Result<Option<Request>, AllocError> {
    let mut words = Vec::new(alloc);
    for word in line.split(' ') {
        words.push(String::from_str(alloc, word)?)?;
    }
    request_of(alloc, &words)
}

// `run` with these options.
fn run(ranks: u32, workers: u32, map: OwnerMap) -> Option<Request> {
    Some(Request::Run {
        ranks,
        workers,
        map,
    })
}

// `serial` with these options.
fn serial(ranks: u32, map: OwnerMap, receipts: bool) -> Option<Request> {
    Some(Request::Serial {
        ranks,
        map,
        receipts,
    })
}

#[test]
fn each_form(rt: HostRuntime) -> Result<(), Fail> {
    let number = u32::MAX;
    let cases: [(&str, Option<Request>); 22] = [
        ("run", run(1, 0, OwnerMap::Block)),
        ("run --ranks 2", run(2, 0, OwnerMap::Block)),
        ("run --ranks=16", run(16, 0, OwnerMap::Block)),
        ("run --workers 4", run(1, 4, OwnerMap::Block)),
        ("run --workers=0000000000", run(1, 0, OwnerMap::Block)),
        ("run --map spread", run(1, 0, OwnerMap::Spread)),
        (
            "run --map=level --ranks 3 --workers=1",
            run(3, 1, OwnerMap::Level),
        ),
        ("check", Some(Request::Check)),
        ("serial", serial(1, OwnerMap::Block, false)),
        ("serial --receipts", serial(1, OwnerMap::Block, true)),
        ("serial --ranks 16", serial(16, OwnerMap::Block, false)),
        (
            "serial --ranks=0000000002",
            serial(2, OwnerMap::Block, false),
        ),
        ("serial --map level", serial(1, OwnerMap::Level, false)),
        (
            "serial --map=spread --ranks 3",
            serial(3, OwnerMap::Spread, false),
        ),
        (
            "serial --ranks 3 --receipts --map spread",
            serial(3, OwnerMap::Spread, true),
        ),
        (
            "serial --receipts --map=block --ranks=4",
            serial(4, OwnerMap::Block, true),
        ),
        ("big 7 --job", Some(Request::BigJob { number: 7 })),
        ("big --job 7", Some(Request::BigJob { number: 7 })),
        ("big 4294967295 --job", Some(Request::BigJob { number })),
        ("big --job 0000000000", Some(Request::BigJob { number: 0 })),
        (
            "big --ranks 15 4294967295 --job --workers=4",
            Some(Request::BigJob { number }),
        ),
        (
            "big 7 --receipts --map level --job --ranks=0000000016",
            Some(Request::BigJob { number: 7 }),
        ),
    ];
    for (line, request) in cases {
        assert_eq!(rt; asked(rt.alloc(), line)?, request, "{line}");
    }
    Ok(())
}

#[test]
fn words_in_no_form(rt: HostRuntime) -> Result<(), Fail> {
    let cases = [
        "",
        "walk",
        "Run",
        "run run",
        "run --ranks 0",
        "run --ranks 17",
        "run --ranks=2 --ranks 2",
        "run --workers 5",
        "run --workers",
        "run --workers -1",
        "run --map Block",
        "run --receipts",
        "run --trace",
        "run --job",
        "run 7",
        "run --",
        "check --receipts",
        "serial --ranks",
        "serial --ranks 0",
        "serial --ranks 17",
        "serial --ranks 00000000002",
        "serial --ranks +2",
        "serial --ranks -2",
        "serial --ranks=",
        "serial --ranks --receipts",
        "serial --ranks 2 --ranks 2",
        "serial --ranks=2 --ranks 2",
        "serial --rank 2",
        "serial --ranks=2=2",
        "serial --map",
        "serial --map Block",
        "serial --map blocks",
        "serial --map -",
        "serial --receipts --receipts",
        "serial --receipts=true",
        "serial --receipts true",
        "serial --receipt",
        "serial -r",
        "serial --help",
        "serial -h",
        "serial --version",
        "serial help",
        "serial --",
        "serial -- --receipts",
        "serial --ranks --",
        "serial -",
        "serial --=2",
        "serial --job",
        "serial 7",
        "big",
        "big --job",
        "big 7",
        "big 7 7 --job",
        "big 7 --job --job",
        "big 7 --job 7",
        "big x --job",
        "big -7 --job",
        "big 4294967296 --job",
        "big 7 --job --",
        "big 7 --receipts",
        "big 7 --ranks 2 --map=level",
        "big 7 --job --ranks 17",
        "big 7 --job --ranks 2 --ranks=2",
        "big 7 --job --workers 5",
        "big 7 --job --workers",
        "big 7 --job --map=",
        "big 7 --job --receipts --receipts",
        "big 7 --job --trace",
        "serial --workers 2",
        "audit",
    ];
    for line in cases {
        assert_eq!(rt; asked(rt.alloc(), line)?, None, "{line}");
    }
    let none = Vec::new(rt.alloc());
    assert_eq!(rt; request_of(rt.alloc(), &none)?, None);
    Ok(())
}
