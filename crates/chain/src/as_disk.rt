// A chain is a disk: what nested mounts would answer, layer by layer.
ghost use Rattle.chain.specs.Chains.{chain_of, sound_chain};

use crate::layers::{Layer, read_layers, sectors_in};
use disk::Disk;
use fault::Fault;
use store::Store;

// Layers, the top one first, over a base.
#[derive(Drop)]
pub struct Chain<'a, S, B> {
    pub layers: &'a [Layer<S>],
    pub base: B,
}

impl<S: Store, B: Disk> Disk for Chain<'_, S, B> {
    ghost reading = { λ d. chain_of (λ l. l.header) (λ l. S.Store.bytes l.store) d.layers.now (B.Disk.reading d.base) };

    ghost sound = { λ d. sound_chain (λ l. l.header) (λ l. S.Store.bytes l.store) (λ l. S.Store.octets l.store) (B.Disk.reading d.base) (B.Disk.sound d.base) d.layers.now };

    fn sectors(&self) -> u64 {
        sectors_in(self.layers, &self.base)
    }

    fn read_sector(&self, sector: u64, out: &mut [u8; 512]) -> Result<(), Fault> {
        read_layers(self.layers, &self.base, sector, out)
    }
}
