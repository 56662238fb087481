//! Laws of the index's format.
ghost use Rattle.layered_index.specs.Laws.{CheckpointBlocksAreApart, IndexPartsAreApart, LayerAboveIsInLine};
ghost use Rattle.layered_index.specs.Laws.{LayersAreInLine};

/// No checkpoint block begins another, and each list in line has its own.
pub fn checkpoint_blocks_are_apart()
    ensures { CheckpointBlocksAreApart }
{}

/// Each list in line has its own index part, at each period.
pub fn index_parts_are_apart()
    ensures { IndexPartsAreApart }
{}

/// The layer above a list in line is in line.
pub fn layer_above_is_in_line()
    ensures { LayerAboveIsInLine }
{}

/// All layers of a list in line are in line.
pub fn layers_are_in_line()
    ensures { LayersAreInLine }
{}
