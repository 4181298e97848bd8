//! What a step is given.
ghost use Rattle.std.specs.Prelude.{◌≡◌};

use std::marker::Model;

/// What a step is given: a value for each future that its unit needs, a cell for each entry that it reads, both in
/// their order, and a size. Contracts see a record of the two lists and the number.
#[derive(Drop)]
pub struct Inputs<V, C> {
    values: Vec<V>,
    cells: Vec<C>,
    size: u64,
}

impl<V, C> Model for Inputs<V, C> {
    ghost use Rattle.app_core.specs.Given.{Given};

    ghost Value = { Given V C };

    ghost view = { λ i. record { values = i.values.items; cells = i.cells.items; size = i.size } };
}

impl<V, C> Inputs<V, C> {
    /// These inputs. It takes no memory.
    pub fn new(values: Vec<V>, cells: Vec<C>, size: u64) -> Inputs<V, C>
        ensures { result ≡ record { values = values.items; cells = cells.items; size = size } }
    {
        Inputs {
            values,
            cells,
            size,
        }
    }

    /// The values, one for each need.
    pub fn values(&self) -> &[V]
        ensures { result.now ≡ self.now.values }
    {
        self.values.as_slice()
    }

    /// The cells, one for each entry that is read.
    pub fn cells(&self) -> &[C]
        ensures { result.now ≡ self.now.cells }
    {
        self.cells.as_slice()
    }

    /// How many entries of the version that the unit counts lie at its home; 0 where it counts none.
    pub fn size(&self) -> u64
        ensures { result ≡ self.now.size }
    {
        self.size
    }

    /// The values and the cells, moved out. It takes no memory.
    pub fn into_parts(self) -> (Vec<V>, Vec<C>)
        ensures values { result.0.items ≡ self.values }
        ensures cells { result.1.items ≡ self.cells }
    {
        let Inputs {
            values,
            cells,
            size: _,
        } = self;
        (values, cells)
    }
}

#[cfg(test)]
mod tests {
    use super::*;
    use std::test::Fail;

    #[test]
    fn inputs_lend_what_was_moved_in(rt: HostRuntime) -> Result<(), Fail> {
        let values = [5u64, 7].to_vec(rt.alloc())?;
        let cells = [3u8].to_vec(rt.alloc())?;
        let inputs = Inputs::new(values, cells, 11);
        assert!(rt; inputs.values() == [5, 7].as_slice());
        assert!(rt; inputs.cells() == [3].as_slice());
        assert_eq!(rt; inputs.size(), 11);
        let (values, cells) = inputs.into_parts();
        assert!(rt; values.as_slice() == [5, 7].as_slice());
        assert!(rt; cells.as_slice() == [3].as_slice());
        Ok(())
    }
}
