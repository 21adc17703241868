// What holds of every table that a list of packed rows made or changed.
ghost use Rattle.project.specs.Laws.{TablesStand};

// A made table is a project within its room, and a rescan keeps it one and keeps what was not touched.
pub fn law_of_tables()
    ensures { TablesStand }
{}
