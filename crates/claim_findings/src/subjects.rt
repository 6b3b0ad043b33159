ghost use Rattle.std.specs.Prelude.{◌≡◌, None};

use query_base::Query;
use retro_search::Limits;

/// What is studied, and how far each search goes. The query bars no move of its own.
#[derive(Clone, Copy)]
pub struct Subject {
    pub query: Query,
    pub limits: Limits,
    pub ghost plain: { query.barred ≡ None },
}
