use arrayvec::ArrayVec;

/// At most four generations, ascending. It has no memory of its own.
#[derive(Drop, Debug)]
pub struct Gens {
    list: ArrayVec<u32, 4>,
}

impl Gens {
    ghost use Rattle.std.specs.Prelude.{◌≡◌, ◌<◌, ◌++◌, ◌∷◌, ◌==◌, [], length, filter, not};
    ghost use Rattle.searcher_table.specs.Warming.{listed};

    // None.
    pub(crate) fn none() -> Gens
        ensures { listed result ≡ [] }
    {
        Gens {
            list: ArrayVec::new(),
        }
    }

    /// The generations, from the least on.
    pub fn get(&self) -> &[u32]
        ensures { result.now ≡ listed self.now }
    {
        self.list.as_slice()
    }

    /// The same again. It takes no memory.
    pub fn again(&self) -> Gens
        ensures { listed result ≡ listed self.now }
    {
        let mut list = ArrayVec::new();
        let Ok(()) = list.try_extend_from_slice(self.list.as_slice()) else {
            unreachable!()
        };
        Gens { list }
    }

    // One more, which is greater than the others.
    pub(crate) fn add(&mut self, generation: u32)
        requires { length (listed self.old) < 4 }
        ensures { listed self.new ≡ listed self.old ++ generation ∷ [] }
    {
        self.list.push(generation);
    }

    // All but this one.
    pub(crate) fn remove(&mut self, generation: u32)
        ensures { listed self.new ≡ filter (λ g. not (g == generation)) (listed self.old) }
    {
        self.list.retain(|g| *g != generation);
    }
}
