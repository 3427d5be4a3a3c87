// The numbers of a header, and what follows from them.
ghost use Rattle.std.specs.Prelude.{◌≡◌, ◌+◌, ◌*◌, ◌/◌, ◌^◌, ◌≤◌, min};
ghost use Rattle.format.specs.Clusters.{cluster, cluster_of, per_table, per_cluster, sectors as sectors_of};
ghost use Rattle.format.specs.Header.{needed, has_backing};

use std::ops::Range;

#[derive(Clone, Copy, PartialEq, Eq, Debug)]
pub struct Numbers {
    pub version: u32,
    // where the backing name lies, 0 for none, and its bytes
    pub name: u64,
    pub letters: u32,
    // a cluster has 2 to this power bytes
    pub bits: u32,
    // the guest disk's bytes
    pub size: u64,
    pub crypt: u32,
    // the live L1 table: its entries and where it lies
    pub entries: u32,
    pub l1: u64,
    // the refcount table: where it lies and its clusters
    pub refcounts: u64,
    pub extent: u32,
    // how many snapshots there are, and where their records lie
    pub snapshots: u32,
    pub records: u64,
    pub incompatible: u64,
    pub autoclear: u64,
    // a count has 2 to this power bits
    pub order: u32,
    // the header's own bytes
    pub header: u32,
}

// A cluster's bytes; the bits are held between 9 and 21, which a good header's are.
pub(crate) fn cluster_of(bits: u32) -> u64
    ensures value { result ≡ cluster_of bits }
    ensures least { 512 ≤ result }
    ensures most { result ≤ 2 ^ 21 }
{
    1u64 << bits.clamp(9, 21)
}

impl Numbers {
    pub fn cluster_size(self) -> u64
        ensures value { result ≡ cluster self }
        ensures least { 512 ≤ result }
        ensures most { result ≤ 2 ^ 21 }
    {
        cluster_of(self.bits)
    }

    // The entries of an L1 or L2 table.
    pub fn table_entries(self) -> u64
        ensures value { result ≡ per_table self }
        ensures least { 64 ≤ result }
        ensures most { result ≤ 2 ^ 18 }
    {
        self.cluster_size() / 8
    }

    // The sectors of a cluster.
    pub fn cluster_sectors(self) -> u64
        ensures value { result ≡ per_cluster self }
        ensures least { 1 ≤ result }
        ensures most { result ≤ 2 ^ 12 }
    {
        self.cluster_size() / 512
    }

    // The guest's sectors.
    pub fn sectors(self) -> u64
        ensures value { result ≡ sectors_of self }
    {
        self.size / 512
    }

    // The L1 entries that the guest size needs: one for each begun cluster size times table entries.
    pub fn needed_entries(self) -> u64
        ensures value { result ≡ needed self }
    {
        let span = self.cluster_size() * self.table_entries();
        self.size.div_ceil(span)
    }

    // The clusters of the refcount table; a good header has at most 64.
    pub fn table_clusters(self) -> u32
        ensures value { result ≡ min self.extent 64 }
        ensures most { result ≤ 64 }
    {
        self.extent.min(64)
    }

    // The snapshot records; a good header has at most 64.
    pub fn records_kept(self) -> u32
        ensures value { result ≡ min self.snapshots 64 }
        ensures most { result ≤ 64 }
    {
        self.snapshots.min(64)
    }

    // Whether the header has a backing name.
    pub fn has_backing(self) -> bool
        ensures value { result ≡ has_backing self }
    {
        self.name != 0
    }

    // The whole clusters of a store of this length.
    pub fn clusters_in(self, length: u64) -> u64
        ensures value { result ≡ length / cluster self }
        ensures most { result ≤ 2 ^ 55 }
    {
        length / self.cluster_size()
    }

    // The guest clusters under the i-th entry of an L1 table.
    pub fn clusters_under(self, i: u32) -> Range<u64>
        ensures start { result.start ≡ i * per_table self }
        ensures end { result.end ≡ i * per_table self + per_table self }
    {
        let first = i as u64 * self.table_entries();
        first..first + self.table_entries()
    }
}
