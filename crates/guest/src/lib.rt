// What a guest sees: from a guest sector through the tables to its bytes, over any store and any backing disk.
#![tactic(auto)]

mod reading;

pub use reading::{
    clear, entry_of, guest_clusters, l1_at, l2_place, mount_sectors, read_entry, read_guest,
    read_under, sectors_of,
};
