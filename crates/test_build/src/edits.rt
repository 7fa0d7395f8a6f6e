//! A file that is accepted, edits of it, and what comes of each.

/// What stands in a file, and what is put in its place.
pub type Edit = (&'static [u8], &'static [u8]);

/// Edits of a file, and the answer to it.
pub type Edited = (&'static [Edit], &'static [u8]);

/// Two models, a field each way: one by redistribution, which is taken before the initialisation, one by weights.
pub const COUPLED: &[u8] = b"\
EARTH_component_list: ATM OCN\n\
startTime: 2000-01-01T00:00:00\n\
stopTime: 2000-01-01T03:00:00\n\
timeStep: 1800\n\
dictionary::\n\
sst K\n\
tas K\n\
flux W/m2\n\
synonym sst tas\n\
::\n\
alarms::\n\
noon every 3600 from 0\n\
::\n\
ATM_petlist_bounds: 0 1\n\
ATM_grid: 4 2 periodic\n\
ATM_decomp: 2 1\n\
ATM_substep: 900\n\
ATM_vars::\n\
t = 0\n\
::\n\
ATM_import::\n\
sst sst K init\n\
::\n\
ATM_export::\n\
q flux W/m2 = i\n\
::\n\
ATM_phases: run slow\n\
ATM_phase_run::\n\
t = sst + t[1,0]\n\
q = call size t\n\
check t 0 400\n\
::\n\
ATM_phase_slow::\n\
q = 1\n\
::\n\
OCN_grid: 4 2\n\
OCN_import::\n\
q flux W/m2 optional\n\
::\n\
OCN_export::\n\
sst tas K = 280\n\
::\n\
OCN_phase_run::\n\
sst = sst + q / 100\n\
::\n\
runSeq::\n\
@3600\n\
OCN -> ATM\n\
ATM\n\
ATM -> OCN :remapMethod=weights:weightFile=w.csv\n\
OCN\n\
@\n\
::\n";
