// hora's hnsw_params.rs, and the header of an index: eleven numbers.
#![tactic(auto)]

ghost use Rattle.std.specs.Prelude.{◌≡◌};
ghost use Rattle.params.specs.Bounds.{within, within_bounds};
ghost use Rattle.params.specs.Params.{defaults, begun};
ghost use Rattle.params.specs.Setters.{with_max_item, with_n_neighbor, with_n_neighbor0, with_max_level, with_ef_build, with_ef_search, with_has_deletion};

// Every number that a caller can give is held; bounds are tested by the calls.
#[derive(Clone, Copy, Debug, PartialEq, Eq, Hash)]
pub struct HNSWParams {
    pub max_item: u16,
    pub n_neighbor: u16,
    pub n_neighbor0: u16,
    pub max_level: u16,
    pub ef_build: u16,
    pub ef_search: u16,
    pub has_deletion: bool,
}

impl Default for HNSWParams {
    ghost is_default = { λ params. params ≡ defaults };

    fn default() -> HNSWParams {
        HNSWParams {
            max_item: 4096,
            n_neighbor: 32,
            n_neighbor0: 64,
            max_level: 20,
            ef_build: 500,
            ef_search: 16,
            has_deletion: false,
        }
    }
}

impl HNSWParams {
    pub const MIN_DIMENSION: u16 = 1;

    pub const MAX_DIMENSION: u16 = 256;

    pub const MIN_ITEM: u16 = 1;

    pub const MAX_ITEM: u16 = 4096;

    pub const MIN_NEIGHBOR: u16 = 1;

    pub const MAX_NEIGHBOR: u16 = 64;

    pub const MIN_LEVEL: u16 = 0;

    pub const MAX_LEVEL: u16 = 20;

    pub const MIN_WIDTH: u16 = 1;

    pub const MAX_WIDTH: u16 = 512;

    // One for each field, as 01 has it: no parameter can name a field, and a macro may write no clause.
    pub fn max_item(mut self, new_max_item: u16) -> HNSWParams
        ensures { result ≡ with_max_item new_max_item self }
    {
        self.max_item = new_max_item;
        self
    }

    pub fn n_neighbor(mut self, new_n_neighbor: u16) -> HNSWParams
        ensures { result ≡ with_n_neighbor new_n_neighbor self }
    {
        self.n_neighbor = new_n_neighbor;
        self
    }

    pub fn n_neighbor0(mut self, new_n_neighbor0: u16) -> HNSWParams
        ensures { result ≡ with_n_neighbor0 new_n_neighbor0 self }
    {
        self.n_neighbor0 = new_n_neighbor0;
        self
    }

    // Added: hora has no setter for it.
    pub fn max_level(mut self, new_max_level: u16) -> HNSWParams
        ensures { result ≡ with_max_level new_max_level self }
    {
        self.max_level = new_max_level;
        self
    }

    pub fn ef_build(mut self, new_ef_build: u16) -> HNSWParams
        ensures { result ≡ with_ef_build new_ef_build self }
    {
        self.ef_build = new_ef_build;
        self
    }

    pub fn ef_search(mut self, new_ef_search: u16) -> HNSWParams
        ensures { result ≡ with_ef_search new_ef_search self }
    {
        self.ef_search = new_ef_search;
        self
    }

    pub fn has_deletion(mut self, new_has_deletion: bool) -> HNSWParams
        ensures { result ≡ with_has_deletion new_has_deletion self }
    {
        self.has_deletion = new_has_deletion;
        self
    }
}

// What an index is told of beside its tables, in this order: dimension, the seven parameters, metric, added, built.
#[derive(Clone, Copy, Debug, PartialEq, Eq, Hash)]
pub struct Header {
    pub dimension: u16,
    pub params: HNSWParams,
    // A number and no Metric: every header is taken, and rule R2 tests it.
    pub metric: u16,
    pub added: u16,
    pub built: u16,
}

fn is_within(n: u16, low: u16, high: u16) -> bool
    ensures { result ≡ within n low high }
{
    (low..=high).contains(&n)
}

impl Header {
    // A header with nothing added.
    pub fn begin(dimension: u16, params: HNSWParams) -> Header
        ensures { result ≡ begun dimension params }
    {
        Header {
            dimension,
            params,
            metric: 0,
            added: 0,
            built: 0,
        }
    }

    // The dimension and the parameters lie within their bounds.
    #[tactic(auto, unfolding(crate::specs::Bounds::within_bounds))]
    pub fn is_within_bounds(self) -> bool
        ensures { result ≡ within_bounds self }
    {
        let p = self.params;
        is_within(
            self.dimension,
            HNSWParams::MIN_DIMENSION,
            HNSWParams::MAX_DIMENSION,
        ) && is_within(p.max_item, HNSWParams::MIN_ITEM, HNSWParams::MAX_ITEM)
            && is_within(
                p.n_neighbor,
                HNSWParams::MIN_NEIGHBOR,
                HNSWParams::MAX_NEIGHBOR,
            )
            && is_within(
                p.n_neighbor0,
                HNSWParams::MIN_NEIGHBOR,
                HNSWParams::MAX_NEIGHBOR,
            )
            && is_within(p.max_level, HNSWParams::MIN_LEVEL, HNSWParams::MAX_LEVEL)
            && is_within(p.ef_build, HNSWParams::MIN_WIDTH, HNSWParams::MAX_WIDTH)
            && is_within(p.ef_search, HNSWParams::MIN_WIDTH, HNSWParams::MAX_WIDTH)
    }
}
