//! Small jobs in three orders, at several numbers of ranks, under each map.

use crate::driver::Driver;
use crate::orders::Order;
use haar_app::HaarApp;
use job_lang::{ParseError, parse};
use owner_map::OwnerMap;
use plain_tree::{SerialError, serial};
use std::alloc::Global;
use std::test::Fail;
use tree_key::Text;

// The serial text of a job, and the command that overflows.
fn expected(alloc: Global, source: &[u8]) -> Result<(Text, Option<u32>), Fail> {
    let job = match parse(alloc, source) {
        Ok(job) => job,
        Err(_) => return Err(Fail::from("no job")),
    };
    match serial(alloc, &job, OwnerMap::Block, 1, false) {
        Ok(text) => Ok((text, None)),
        Err(SerialError::Overflow { command, text }) => Ok((text, Some(command))),
        Err(SerialError::OutOfMemory) => Err(Fail::from("no memory")),
    }
}

// Whether the units of a job make the serial text.
fn agrees(
    alloc: Global,
    source: &[u8],
    map: OwnerMap,
    ranks: u32,
    order: Order,
) -> Result<bool, Fail> {
    if ranks < 1 || ranks > 16 {
        return Ok(false);
    }
    let (text, overflow) = expected(alloc, source)?;
    let job = match parse(alloc, source) {
        Ok(job) => job,
        Err(_) => return Err(Fail::from("no job")),
    };
    let app = HaarApp::new(alloc, job, map, ranks)?;
    let mut driver = Driver::new(alloc, order);
    let (made, at) = driver.text(alloc, &app)?;
    let (lines, overflow_at) = driver.lines(alloc, &app)?;
    let same = lines.bytes() == text.bytes() && overflow_at == overflow;
    Ok(same && made.bytes() == text.bytes() && at == overflow)
}

const JOBS: [&[u8]; 15] = [
    b"job 1 depth 1\nproject f step 1 1 16777216 level 0 tol 0\nprint f\ncompress f\nfence\nprint f\nadd g = 1 f + 1 f\nprint g\n",
    b"job 1 depth 0\nproject f const 5 level 0 tol 0\nprint f\n",
    b"job 1 depth 2\nproject f ramp 0 1 level 0 tol 0\nprint f\n",
    b"job 1 depth 2\nproject f ramp 0 1 level 0 tol 0\ncompress f\nprint f\n",
    b"job 1 depth 2\nproject f ramp 0 1 level 0 tol 0\ncompress f\ninner f f\nreconstruct f\nprint f\n",
    b"job 1 depth 2\nproject f const 5 level 0 tol 0\nproject g ramp 0 1 level 0 tol 0\ncompress f\ncompress g\nadd h = 1 f + -1 g\nprint h\ninner f g\ninner h g\nreconstruct h\nprint h\n",
    b"job 1 depth 2\nproject f ramp 0 1 level 0 tol 2\nprint f\nrefine f 1\nprint f\nfence\nrefine f 2\nprint f\n",
    b"job 1 depth 0\nproject f const 16777216 level 0 tol 0\nprint f\ncompress f\nadd h = 2 f + 0 f\nadd k = 3 f + 0 f\nprint h\n",
    b"job 1 depth 0\nproject f const 4096 level 0 tol 0\nproject g const -4096 level 0 tol 0\nmul h = f * g\nprint h\n",
    b"job 1 depth 0\nproject f const 4097 level 0 tol 0\nproject g const -4096 level 0 tol 0\nmul h = f * g\nprint h\n",
    b"job 1 depth 0\nproject f hash 0 1000 level 0 tol 0\nprint f\n",
    b"job 1 depth 4\nproject f hash 3 50 level 2 tol 20\nproject g step 11 -5 7 level 1 tol 0\nproject h box 3 12 2 level 0 tol 0\nfence\nmul p = f * g\nprint p\ncompress p\ncompress h\nadd q = 3 p + -2 h\nprint q\ninner q p\nreconstruct q\nprint q\nmul q = q * q\nprint q\nrefine q 3\nprint q\n",
    b"job 1 depth 3\nproject f ramp 16777000 30 level 0 tol 0\ncompress f\nproject g const 2 level 0 tol 0\ncompress g\nadd h = 1 f + 5 g\nprint h\nreconstruct h\nprint h\nrefine h 2\nmul k = h * h\n",
    b"job 1 depth 3\nproject f const 5 level 0 tol 0\nrefine f 3\ncoarsen f\nfence\nsize f\n",
    b"job 1 depth 3\nproject f step 3 5 9 level 3 tol 0\nfence\nsize f\ncoarsen f\nprint f\nfence\nsize f\ncompress f\ninner f f\n",
];

const MAPS: [OwnerMap; 3] = [OwnerMap::Block, OwnerMap::Spread, OwnerMap::Level];

const ORDERS: [Order; 3] = [Order::First, Order::Last, Order::Shuffled];

#[test]
fn units_make_the_serial_text(rt: HostRuntime) -> Result<(), Fail> {
    for source in JOBS {
        for map in MAPS {
            for ranks in [1u32, 2, 3, 16] {
                for order in ORDERS {
                    let agrees = agrees(rt.alloc(), source, map, ranks, order)?;
                    assert!(rt; agrees, "{ranks} ranks, {map:?}, {order:?}");
                }
            }
        }
    }
    Ok(())
}
