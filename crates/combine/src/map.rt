// What a call that combines two maps is given, once the checks have passed it.
ghost use Rattle.std.specs.Prelude.{◌≡◌, true, length};
ghost use Rattle.mom.specs.Map.{first_fault};
ghost use Rattle.build.specs.Add.{map_refusal};
ghost use Rattle.combine.specs.Slices.{passes};

// A valid map: its depth, its zuniqs and their values.
#[derive(Drop)]
pub struct Map<'a, V> {
    pub depth: u8,
    pub zuniqs: &'a [u64],
    pub values: &'a [V],
    pub ghost paired: { length zuniqs.now ≡ length values.now },
    pub ghost valid: { passes (map_refusal (first_fault 29 depth zuniqs.now)) ≡ true },
}
