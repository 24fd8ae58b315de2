use pb_rows::laws;

#[test]
fn the_laws_of_layers_over_one_another_hold() {
    laws::same_effect();
    laws::apart_in_any_order();
    laws::over_all_says_the_newest();
    laws::over_keeps_layers();
    laws::over_groups();
    laws::rows_are_their_verdicts();
    laws::a_layers_pairs();
}

#[test]
fn the_laws_of_commands_as_layers_hold() {
    laws::layer_does_the_command();
    laws::last_change_is_newest();
    laws::changes_are_layers();
}
