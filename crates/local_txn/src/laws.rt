//! Laws of local transactions, each as a function that does nothing.
ghost use Rattle.local_txn.specs.Laws.{StampsOfABlockRise, SoundSchemasFillFreely};

/// The stamps that a block gives rise from the site's last one, each of its changes that fills a STAMP column in with
/// one of its own, above the stamps that were there; and the clock stands still.
pub fn stamps_of_a_block_rise()
    ensures { StampsOfABlockRise }
{}

/// In a schema that breaks no rule the columns that a site fills are no key columns and stand in no secondary
/// constraint, so that base rows can be filled in.
pub fn sound_schemas_fill_freely()
    ensures { SoundSchemasFillFreely }
{}
