//! The text of a configuration, without its numbers.

/// The components and the dictionary, up to the grid of the mediator.
pub(crate) const DICTIONARY: &[u8] = b"\
EARTH_component_list: MED ATM OCN LND
dictionary::
temperature degC
heat_flux W/m2
mean_heat_flux W/m2
wetness 1
::
MED_kind: mediator
MED_petlist_bounds: 0 7
";

/// The mediator, from its decomposition on, up to the grid of the atmosphere.
pub(crate) const MEDIATOR: &[u8] = b"\
MED_decomp: 4 2
MED_vars::
mix = 0
::
MED_import::
a_flux heat_flux W/m2 check=next
l_wet wetness 1 check=next
o_temp temperature degC check=none init
::
MED_export::
temp temperature degC = o_temp
heat mean_heat_flux W/m2 = 0
::
MED_phases: prep accum mean
MED_phase_prep::
temp = o_temp
::
MED_phase_accum::
add heat = a_flux
merge mix = a_flux l_wet
::
MED_phase_mean::
average heat
::
ATM_petlist_bounds: 0 3
";

/// The atmosphere, from its decomposition on, up to the last digit of its diffusion.
pub(crate) const ATMOSPHERE: &[u8] = b"\
ATM_decomp: 2 2
ATM_import::
temp temperature degC
::
ATM_export::
flux heat_flux W/m2 = i - j
::
ATM_phase_run::
flux = flux + 0.0";

/// The rest of its rule, up to the grid of the ocean.
pub(crate) const FLUX: &[u8] =
    b" * (flux[1,0] + flux[-1,0] + flux[0,1] + flux[0,-1] - 4 * flux) - temp / 100
::
OCN_petlist_bounds: 4 7
";

/// The ocean, from its imports on, up to the grid of the land.
pub(crate) const OCEAN: &[u8] = b"\
OCN_import::
heat mean_heat_flux W/m2
::
OCN_export::
temp temperature degC = 15 - abs(j - ny / 2)
::
OCN_phase_run::
temp = temp + heat / 1000
::
LND_petlist_bounds: 2 5
";

/// The land, from its decomposition on, and the run sequence up to its duration.
pub(crate) const LAND: &[u8] = b"\
LND_decomp: 1 4
LND_import::
temp temperature degC
::
LND_export::
wet wetness 1 = 0.5
::
LND_phase_run::
wet = min(1, max(0, wet + (temp - 5) / 1000))
::
runSeq::
@3600:";

/// The rest of the run sequence.
pub(crate) const SEQUENCE: &[u8] = b"\n\
@1800
MED prep
MED -> ATM
MED -> LND
ATM
LND
ATM -> MED
LND -> MED
MED accum
@
MED mean
MED -> OCN
OCN
OCN -> MED
@
::
";
