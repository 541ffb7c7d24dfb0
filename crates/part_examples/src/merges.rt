//! The merge of families, computed: the turns of the parts, with the stamps that each gives by itself, are put into one order,
//! which moves of the world make one behind the other, and in which each part has its list.

ghost use Rattle.std.specs.Prelude.{◌≡◌, ◌∷◌};
ghost use Rattle.lload_names.specs.declared.names.PartName.TheVariants.{Desk, Client, Up as Connection};
ghost use Rattle.lload_spec.specs.Journal.{of_part};
ghost use Rattle.lload_spec.specs.Plain.{plain};
ghost use Rattle.part_spec.specs.Merge.{merge, world_of};
ghost use Rattle.part_spec.specs.Play.{played};
ghost use Rattle.part_spec.specs.World.{journal_of as journal_in};
ghost use Rattle.spec_examples.specs.Configurations.{reloading};
ghost use Rattle.spec_examples.specs.Deletes.{delete_answered};
ghost use Rattle.spec_examples.specs.Journals.{two_clients};
ghost use Rattle.spec_examples.specs.Reloads.{taken_while_running};
ghost use Rattle.part_examples.specs.FeatureScripts.{taken_while_running_script};
ghost use Rattle.part_examples.specs.MergedFamilies.{anew_merged, anew_moves, anew_stamps, clients_merged, clients_moves, clients_stamps, delete_merged, delete_moves, delete_stamps, parts_1, parts_2, parts_anew, stamps_in};
ghost use Rattle.part_examples.specs.Merges.{family_of, journal_of};
ghost use Rattle.part_examples.specs.Scripts.{delete_script, two_clients_script};

/// One Delete there and back: of turns with equal stamps the desk's stands first, then clients', then connections'.
pub fn the_delete_is_merged()
    ensures stamps { stamps_in (merge parts_1 (family_of (played plain delete_script))) ≡ delete_stamps }
    ensures merged { journal_of (merge parts_1 (family_of (played plain delete_script))) ≡ delete_merged }
    ensures moves { journal_in (world_of plain delete_moves) ≡ delete_merged }
    ensures desk { of_part Desk delete_merged ≡ of_part Desk delete_answered }
    ensures client_1 { of_part (Client 1) delete_merged ≡ of_part (Client 1) delete_answered }
    ensures connection_1 { of_part (Connection 1) delete_merged ≡ of_part (Connection 1) delete_answered }
{}

/// Two clients with one identifier: both ask before the first is answered.
pub fn two_clients_are_merged()
    ensures stamps { stamps_in (merge parts_2 (family_of (played plain two_clients_script))) ≡ clients_stamps }
    ensures merged { journal_of (merge parts_2 (family_of (played plain two_clients_script))) ≡ clients_merged }
    ensures moves { journal_in (world_of plain clients_moves) ≡ clients_merged }
    ensures desk { of_part Desk clients_merged ≡ of_part Desk two_clients }
    ensures client_1 { of_part (Client 1) clients_merged ≡ of_part (Client 1) two_clients }
    ensures client_2 { of_part (Client 2) clients_merged ≡ of_part (Client 2) two_clients }
    ensures connection_1 { of_part (Connection 1) clients_merged ≡ of_part (Connection 1) two_clients }
{}

/// Another plan comes while a Delete runs.
pub fn another_plan_is_merged()
    ensures stamps { stamps_in (merge parts_anew (family_of (played reloading taken_while_running_script))) ≡ anew_stamps }
    ensures merged { journal_of (merge parts_anew (family_of (played reloading taken_while_running_script))) ≡ anew_merged }
    ensures moves { journal_in (world_of reloading anew_moves) ≡ anew_merged }
    ensures desk { of_part Desk anew_merged ≡ of_part Desk taken_while_running }
    ensures client_1 { of_part (Client 1) anew_merged ≡ of_part (Client 1) taken_while_running }
    ensures connection_1 { of_part (Connection 1) anew_merged ≡ of_part (Connection 1) taken_while_running }
    ensures connection_2 { of_part (Connection 2) anew_merged ≡ of_part (Connection 2) taken_while_running }
{}
