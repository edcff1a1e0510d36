ghost use Rattle.sw_host.specs.Laws.{StoredFile, OtherFiles, FailsAlike};

/// Does nothing: its clauses are laws of what a host tells.
#[tactic(auto, using(crate::proofs::FileLemmas::stored), unfolding(crate::specs::Calls::called, crate::specs::Calls::with_file))]
pub fn host_laws()
    ensures stored_file { StoredFile }
    ensures other_files { OtherFiles }
    ensures fails_alike { FailsAlike }
{}
