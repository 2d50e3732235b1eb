use desk_lock::Kept;
use volume_core::World;

/// A World that lies on a desk, or is in the hands of whoever has the turn.
#[derive(Drop)]
pub struct WorldOnDesk {
    pub world: Box<World>,
}

impl Kept for WorldOnDesk {
    ghost use Rattle.volume_model.specs.declared.entry.Entry.{Entry};
    ghost use Rattle.volume_core.specs.Streams.{Origin};
    ghost use Rattle.world_holder.specs.Laid.{Running, world_account};

    ghost Entry = { Entry };

    ghost OpenCall = { Running };

    ghost Origin = { Origin };

    ghost account = { world_account };

    fn length(&self) -> u64 {
        self.world.journal.len()
    }
}
