//! The generator of jobs.
ghost use Rattle.std.specs.Prelude.{◌≡◌, IfOk, [], ◌∷◌, ◌%◌, codes, map, negsuc, pos, true};
ghost use Rattle.tree_model.specs.Commands.Command.{Add, Coarsen, Compress, Fence, Inner, Mul, Project, Reconstruct, Size};
ghost use Rattle.tree_model.specs.Functions.Function.{Box, Hash, Ramp};
ghost use Rattle.job_words.specs.NameBytes.{bytes_of};
ghost use Rattle.job_words.specs.Names.{is_name};
ghost use Rattle.job_data.specs.Data.{data_of};
ghost use Rattle.big_job.specs.Generator.{big_job};

use haar_node::Func;
use job_data::{Command, Job};
use job_words::Name;
use std::alloc::Global;
use tree_key::OutOfMemory;

const DEPTH: u8 = 12;

// The cells at this depth.
const CELLS: u32 = 4096;

const MODULUS: u32 = 1000;

// A word that is a name, as one.
fn name(word: &[u8]) -> Name
    requires { is_name word.now ≡ true }
    ensures { bytes_of result ≡ word.now }
{
    match Name::of_word(word) {
        Some(name) => name,
        None => unreachable!(),
    }
}

// Projects a hash as `f`, a ramp as `g` and a box as `h`.
fn projections(number: u32) -> [Command; 4]
    ensures { map data_of result ≡
        Project (codes "f") (record { function = Hash number 1000; level = 4; tolerance = 500 })
        ∷ Project (codes "g") (record { function = Ramp (pos (number % 1000)) (pos 1); level = 2; tolerance = 16 })
        ∷ Project (codes "h") (record { function = Box (number % 4096) 4096 (pos 7); level = 6; tolerance = 0 })
        ∷ Fence ∷ [] }
{
    let hash = Command::Project {
        name: name(b"f"),
        function: Func::Hash(number, MODULUS),
        level: 4,
        tolerance: 500,
    };
    let ramp = Command::Project {
        name: name(b"g"),
        function: Func::Ramp(i64::from(number % MODULUS), 1),
        level: 2,
        tolerance: 16,
    };
    let range = Command::Project {
        name: name(b"h"),
        function: Func::Box(number % CELLS, CELLS, 7),
        level: 6,
        tolerance: 0,
    };
    [hash, ramp, range, Command::Fence]
}

// Compresses the three trees, makes `p` of two of them, and prints inner products.
fn sums() -> [Command; 7]
    ensures { map data_of result ≡
        Compress (codes "f") ∷ Compress (codes "g") ∷ Compress (codes "h")
        ∷ Add (codes "p") (pos 2) (codes "f") (negsuc 0) (codes "g")
        ∷ Inner (codes "f") (codes "g") ∷ Inner (codes "p") (codes "h")
        ∷ Fence ∷ [] }
{
    let (f, g, h, p) = (name(b"f"), name(b"g"), name(b"h"), name(b"p"));
    let add = Command::Add {
        name: p,
        left_factor: 2,
        left: f,
        right_factor: -1,
        right: g,
    };
    [
        Command::Compress { name: f },
        Command::Compress { name: g },
        Command::Compress { name: h },
        add,
        Command::Inner { left: f, right: g },
        Command::Inner { left: p, right: h },
        Command::Fence,
    ]
}

// Makes the product `q`.
fn product() -> [Command; 4]
    ensures { map data_of result ≡
        Reconstruct (codes "p") ∷ Reconstruct (codes "h") ∷ Mul (codes "q") (codes "p") (codes "h") ∷ Fence ∷ [] }
{
    let (h, p) = (name(b"h"), name(b"p"));
    let mul = Command::Mul {
        name: name(b"q"),
        left: p,
        right: h,
    };
    [
        Command::Reconstruct { name: p },
        Command::Reconstruct { name: h },
        mul,
        Command::Fence,
    ]
}

// Coarsens the product and counts its keys.
fn count() -> [Command; 3]
    ensures { map data_of result ≡ Coarsen (codes "q") ∷ Fence ∷ Size (codes "q") ∷ [] }
{
    let q = name(b"q");
    [
        Command::Coarsen { name: q },
        Command::Fence,
        Command::Size { name: q },
    ]
}

// The commands of the job of a number.
fn commands(alloc: Global, number: u32) -> Result<Vec<Command>, OutOfMemory>
    ensures { IfOk result (λ commands. map data_of commands.items ≡ (big_job number).commands) }
{
    let mut commands = Vec::new(alloc);
    commands.extend_from_slice(&projections(number))?;
    commands.extend_from_slice(&sums())?;
    commands.extend_from_slice(&product())?;
    commands.extend_from_slice(&count())?;
    Ok(commands)
}

/// The job of a number: 18 commands, which write 5 trees of depth 12. The number is the seed of a hash; modulo 1000 it is
/// the start of a ramp, and modulo 4096 the first cell of a box.
///
/// # Errors
///
/// `OutOfMemory` where memory for the commands is refused.
pub fn big_job(alloc: Global, number: u32) -> Result<Job, OutOfMemory>
    ensures { IfOk result (λ job. job ≡ big_job number) }
{
    let commands = commands(alloc, number)?;
    Ok(Job::new(DEPTH, commands))
}
