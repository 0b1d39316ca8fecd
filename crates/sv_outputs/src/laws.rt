// Laws of the files that plans tell, for all lawful books.
ghost use Rattle.std.specs.Prelude.{ℕ};
ghost use Rattle.sv_model.specs.declared.records.Descriptor.{Descriptor};
ghost use Rattle.sv_model.specs.declared.records.FileMeta.{FileMeta};
ghost use Rattle.sv_model.specs.Books.{Books};
ghost use Rattle.sv_model.specs.Lawful.{Lawful};
ghost use Rattle.sv_outputs.specs.Flushing.{AreWritesOf, IsFlushDue};
ghost use Rattle.sv_outputs.specs.Merging.{IsMergeDue};
ghost use Rattle.sv_outputs.specs.Planned.{PlansFlush, PlansMerge, rows_borne};

/// The file of a flush over what a SuperVersion names is due over the rows that the memtables of the list bear, and
/// these are its writes.
pub fn planned_flush_is_due()
    ensures due { (b : Books) (d : Descriptor) (file : FileMeta) → Lawful b → (h : PlansFlush b d file) → IsFlushDue (rows_borne b.journal h.describes.list.members) file }
    ensures own { (b : Books) (d : Descriptor) (file : FileMeta) → Lawful b → (h : PlansFlush b d file) → AreWritesOf b.journal d.family file (rows_borne b.journal h.describes.list.members) }
{}

/// The file of a compaction over what a SuperVersion names is due over the files of the Version.
pub fn planned_merge_is_due()
    ensures { (b : Books) (d : Descriptor) (file : FileMeta) → Lawful b → (h : PlansMerge b d file) → IsMergeDue h.describes.version.files file }
{}
