//! The name of a running router.

use std::marker::Brand;

/// Names a running router: its book, how many shares of it there are, and its configuration.
pub trait RunBrand {
    ghost use Rattle.std.specs.Prelude.{ℕ, Option};
    ghost use Rattle.atomic_table.specs.Seated.{TableId};
    ghost use Rattle.process_packet.specs.declared.config.Config.{Config};

    ghost table: { TableId };

    ghost workers: { ℕ };

    ghost config: { Option Config };
}

impl RunBrand for Brand {
    ghost use Rattle.std.specs.Prelude.{None};
    ghost use Rattle.packet_ledger.specs.Tokens.{no_table};

    ghost table = { no_table };

    ghost workers = { 0 };

    ghost config = { None };
}
